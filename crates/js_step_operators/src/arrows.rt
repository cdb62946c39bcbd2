//! Arrows behind parameters.

ghost use Rattle.std.specs.Prelude.{◌∷◌, []};
ghost use Rattle.js_reading.specs.Operands.{to_arrow, on_arrow};
ghost use Rattle.js_step_operands.specs.Answers.{Gives, Makes};

use js_ast::Identifier;
use js_reading::{Frame, Operand, Parser, Pending, Pile};
use js_step_operands::{Stop, parameter_of, refused, stopped, takes_assign, wants};
use sqlite_items::Items;
use std::alloc::Global;

/// `=>` behind parameters, on their line.
pub fn to_arrow(
    line: bool,
    start: u32,
    parameters: Items<Identifier>,
    frames: Pile<Frame>,
) -> Result<Parser, Stop>
    ensures { Gives (λ x. x) result (to_arrow line start parameters frames) }
{
    if line {
        drop(parameters);
        return refused(frames);
    }
    wants(Frame::Pending(Pending::Arrow { start, parameters }), frames)
}

/// A list of the one name.
fn alone(alloc: Global, name: Identifier) -> Result<Items<Identifier>, Stop>
    ensures { Makes result (name ∷ []) }
{
    let mut names = Items::new(alloc);
    names.push(name)?;
    Ok(names)
}

/// `=>` behind a name.
pub fn on_arrow(
    alloc: Global,
    line: bool,
    start: u32,
    operand: Operand,
    frames: Pile<Frame>,
) -> Result<Parser, Stop>
    ensures { Gives (λ x. x) result (on_arrow line start operand frames) }
{
    match parameter_of(operand) {
        Ok(name) => {
            if takes_assign(&frames) {
                return match alone(alloc, name) {
                    Ok(names) => to_arrow(line, start, names, frames),
                    Err(stop) => stopped(stop, frames),
                };
            }
            drop(name);
            refused(frames)
        }
        Err(stop) => stopped(stop, frames),
    }
}
