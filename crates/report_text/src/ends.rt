//! Ends of runs.

ghost use Rattle.std.specs.Prelude.{◌≡◌, ◌++◌, OnOk};
ghost use Rattle.report_text.specs.Lines.{error_text, thrown_text, why_text, budget_text, turns_text, end_text};

use crate::pieces::{push, push_at, push_number};
use js_units::NoMemory;
use path_core::{Budget, End, ErrorName, Thrown, Why};
use std::alloc::Global;

fn error_name(name: ErrorName) -> &'static str
    ensures { result.now ≡ error_text name }
{
    match name {
        ErrorName::Error => "Error",
        ErrorName::TypeError => "TypeError",
        ErrorName::RangeError => "RangeError",
        ErrorName::ReferenceError => "ReferenceError",
    }
}

fn thrown(what: Thrown) -> &'static str
    ensures { result.now ≡ thrown_text what }
{
    match what {
        Thrown::Value => "value",
        Thrown::Named(name) => error_name(name),
    }
}

fn reason(why: Why) -> &'static str
    ensures { result.now ≡ why_text why }
{
    match why {
        Why::Range => "range",
        Why::Divide => "divide",
        Why::Convert => "convert",
        Why::Inherited => "inherited",
        Why::Message => "message",
        Why::Unicode => "unicode",
        Why::Template => "template",
        Why::Size => "size",
        Why::Key => "key",
        Why::Set => "set",
        Why::Builtin => "builtin",
        Why::Name => "name",
        Why::Iterate => "iterate",
        Why::New => "new",
    }
}

fn budget(what: Budget) -> &'static str
    ensures { result.now ≡ budget_text what }
{
    match what {
        Budget::Turns => "turns",
        Budget::Events => "events",
        Budget::Nodes => "nodes",
    }
}

fn push_turns(alloc: Global, out: &mut Vec<u8>, turns: u32, ended: u32) -> Result<(), NoMemory>
    ensures { OnOk result (out.new.items ≡ out.old.items ++ turns_text turns ended) }
{
    if turns == 0 {
        return Ok(());
    }
    push(out, "+")?;
    push_number(alloc, out, turns)?;
    if ended == 0 {
        return Ok(());
    }
    push(out, "+")?;
    push_number(alloc, out, ended)?;
    Ok(())
}

#[tactic(auto, unfolding(crate::specs::Lines::end_text))]
pub(crate) fn push_end(alloc: Global, out: &mut Vec<u8>, end: End) -> Result<(), NoMemory>
    ensures { OnOk result (out.new.items ≡ out.old.items ++ end_text end) }
{
    match end {
        End::Done => {
            push(out, "done")?;
            Ok(())
        }
        End::Threw { site, what } => {
            push(out, "threw:")?;
            push_at(alloc, out, thrown(what), site)?;
            Ok(())
        }
        End::Left {
            site,
            why,
            turns,
            ended,
        } => {
            push(out, "left:")?;
            push_at(alloc, out, reason(why), site)?;
            push_turns(alloc, out, turns, ended)?;
            Ok(())
        }
        End::Cut { site, what } => {
            push(out, "cut:")?;
            push_at(alloc, out, budget(what), site)?;
            Ok(())
        }
    }
}
