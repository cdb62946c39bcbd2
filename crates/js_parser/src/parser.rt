//! Scripts from bytes.

ghost use Rattle.std.specs.Prelude.{◌≡◌, ◌<◌, ◌^◌, length, Ok, IfOk};
ghost use Rattle.js_ast.specs.declared.statement.Script.{Script as SpecScript};
ghost use Rattle.js_parser.specs.Answers.{Answers};
ghost use Rattle.js_parser.specs.Naming.{IsNamedBy};
ghost use Rattle.js_parser.specs.Spelling.{Spells};
ghost use Rattle.js_parser.specs.Refusals.{IsRefused};

use crate::laws::readings;
use crate::reading::read;
use crate::refusal::{ScriptRefusal, undecoded};
use js_ast::{Script, Stmt};
use js_early::early_name;
use js_units::from_utf8;
use sqlite_items::Items;
use std::alloc::Global;

/// The script, unless a name is declared where it may not be.
fn named(alloc: Global, body: Items<Stmt>) -> Result<Script, ScriptRefusal>
    ensures { IsNamedBy body result }
{
    let script = Script { body };
    match early_name(alloc, &script) {
        Ok(None) => Ok(script),
        Ok(Some(at)) => Err(ScriptRefusal::EarlyName { at }),
        Err(_) => Err(ScriptRefusal::NoMemory),
    }
}

/// The script that the bytes spell (ECMA-262, section 16.1). Each place of a refusal is a byte offset. A file that isn't
/// UTF-8 is refused first; then comes the least place of a syntax error, a wide number and a token nested deeper than
/// 200, the syntax error first where two share a place; then the least place of a name that is declared where it may not be.
pub fn parse_script(alloc: Global, bytes: &[u8]) -> Result<Script, ScriptRefusal>
    requires { length bytes.now < 2 ^ 31 }
    // What is read is spelt so.
    ensures found { IfOk result (λ script. Spells bytes.now script) }
    // What is spelt so is read, unless memory runs out.
    ensures only { (script : SpecScript) → Spells bytes.now script → Answers result (Ok script) }
    // No bytes spell two scripts.
    ensures unique { (a b : SpecScript) → Spells bytes.now a → Spells bytes.now b → a ≡ b }
    // What is refused is refused at its place, and for the reason that comes first.
    ensures refused { IsRefused bytes.now result }
{
    readings();
    match from_utf8(alloc, bytes) {
        Ok(text) => match read(alloc, &text) {
            Ok(body) => named(alloc, body),
            Err(refusal) => Err(refusal),
        },
        Err(refusal) => Err(undecoded(refusal)),
    }
}
