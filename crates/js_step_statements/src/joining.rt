//! What ends with a statement, or with the braces around a list.

ghost use Rattle.std.specs.Prelude.{◌≡◌, ◌∷◌};
ghost use Rattle.js_reading.specs.Operands.{at, reached};
ghost use Rattle.js_reading.specs.declared.mode.Operand.TheVariants as operand;
ghost use Rattle.js_reading.specs.declared.mode.Mode.TheVariants as mode;
ghost use Rattle.js_reading.specs.Statements.{over, arm, joined, waits, settle, close_list, close_braces};
ghost use Rattle.js_step_operands.specs.Answers.{Gives, Makes};

use crate::sections::{boxed, over};
use js_ast::{Arm, Catch, Expr, Stmt};
use js_reading::{Below, Braces, Frame, Mode, Operand, Over, Parser, Pile, Trying};
use js_step_operands::{
    Stop, boxed as tree, discard, primary, pushed, reached, refused, refused_at, stopped,
};
use sqlite_items::{Boxed, Items};
use std::alloc::Global;

/// An arm more.
pub fn with_arm(
    arms: Items<Arm>,
    site: u32,
    test: Boxed<Expr>,
    consequent: Boxed<Stmt>,
) -> Result<Items<Arm>, Stop>
    ensures { Makes result (arm arms site test consequent) }
{
    let mut arms = arms;
    arms.push(Arm {
        site,
        test,
        consequent,
    })?;
    Ok(arms)
}

/// The whole, once the statement below is there.
fn joined(alloc: Global, below: Below, stmt: Boxed<Stmt>) -> Result<Boxed<Stmt>, Stop>
    ensures { Makes result (joined below stmt) }
{
    let whole = match below {
        Below::Then { arms, site, test } => match with_arm(arms, site, test, stmt) {
            Ok(arms) => Stmt::If {
                arms,
                alternate: None,
            },
            Err(stop) => return Err(stop),
        },
        Below::Else { arms } => Stmt::If {
            arms,
            alternate: Some(stmt),
        },
        Below::While { site, test } => Stmt::While {
            site,
            test,
            body: stmt,
        },
        Below::Do { .. } => return Ok(stmt),
        Below::For {
            site,
            head,
            test,
            update,
        } => {
            Stmt::For {
                site,
                head,
                test,
                update,
                body: stmt,
            }
        }
        Below::ForOf {
            site,
            kind,
            name,
            items,
        } => {
            Stmt::ForOf {
                site,
                kind,
                name,
                items,
                body: stmt,
            }
        }
    };
    boxed(alloc, whole)
}

/// Whether a word is awaited behind the statement below: `while`, or `else` where one is there.
fn waits(is_else: bool, below: &Below) -> bool
    ensures { result ≡ waits is_else below.now }
{
    match below {
        Below::Then { .. } => is_else,
        Below::Do { .. } => true,
        _ => false,
    }
}

/// A statement inside a frame that is put back.
fn settled_in(stmt: Boxed<Stmt>, frame: Frame, frames: Pile<Frame>) -> Result<Over, Stop>
    ensures { Makes result (record { value = stmt; frames = frame ∷ frames }) }
{
    match pushed(frames, frame) {
        Ok(frames) => Ok(Over {
            value: stmt,
            frames,
        }),
        Err(stop) => {
            drop(stmt);
            Err(stop)
        }
    }
}

/// What ends with a statement.
pub fn settle(
    alloc: Global,
    is_else: bool,
    stmt: Boxed<Stmt>,
    frames: Pile<Frame>,
) -> Result<Over, Stop>
    ensures { Makes result (settle is_else stmt frames) }
{
    let mut frames = frames;
    match frames.pop() {
        None => Ok(Over {
            value: stmt,
            frames,
        }),
        Some(Frame::Below(below)) => {
            if waits(is_else, &below) {
                return settled_in(stmt, Frame::Below(below), frames);
            }
            match joined(alloc, below, stmt) {
                Ok(whole) => settle(alloc, is_else, whole, frames),
                Err(stop) => {
                    discard(frames);
                    Err(stop)
                }
            }
        }
        Some(frame) => settled_in(stmt, frame, frames),
    }
}

/// A statement that is over with its last token.
pub fn over_with(alloc: Global, stmt: Stmt, frames: Pile<Frame>) -> Result<Parser, Stop>
    ensures { Makes result (over stmt frames) }
{
    match boxed(alloc, stmt) {
        Ok(stmt) => Ok(over(stmt, frames)),
        Err(stop) => stopped(stop, frames),
    }
}

/// A `try` between its parts.
pub fn trying(trying: Trying, frames: Pile<Frame>) -> Result<Parser, Stop>
    ensures { Makes result (at (mode.Trying trying) frames) }
{
    Ok(Parser {
        mode: Mode::Trying(trying),
        frames,
    })
}

/// An arrow that ends in braces.
fn braced(alloc: Global, start: u32, arrow: Expr, frames: Pile<Frame>) -> Result<Parser, Stop>
    ensures { Makes result (reached start (operand.Braced arrow) frames) }
{
    match tree(alloc, arrow) {
        Ok(arrow) => Ok(reached(start, Operand::Braced(arrow), frames)),
        Err(stop) => stopped(stop, frames),
    }
}

/// The braces around statements close.
fn close_list(
    alloc: Global,
    braces: Braces,
    body: Items<Stmt>,
    frames: Pile<Frame>,
) -> Result<Parser, Stop>
    ensures { Gives (λ x. x) result (close_list braces body frames) }
{
    match braces {
        Braces::Script => {
            drop(body);
            refused(frames)
        }
        Braces::Block { site } => over_with(alloc, Stmt::Block { site, body }, frames),
        Braces::Function {
            site,
            name,
            parameters,
        } => {
            over_with(
                alloc,
                Stmt::Function {
                    site,
                    name,
                    parameters,
                    body,
                },
                frames,
            )
        }
        Braces::Value {
            site,
            name,
            parameters,
        } => {
            primary(
                alloc,
                site,
                Expr::FunctionExpression {
                    site,
                    name,
                    parameters,
                    body,
                },
                frames,
            )
        }
        Braces::Arrow { start, parameters } => {
            braced(
                alloc,
                start,
                Expr::ArrowBlock {
                    site: start,
                    parameters,
                    body,
                },
                frames,
            )
        }
        Braces::Try { site } => trying(Trying::Tried { site, body }, frames),
        Braces::Catch {
            site,
            body: tried,
            name,
        } => {
            let catch = Catch { name, body };
            trying(
                Trying::Caught {
                    site,
                    body: tried,
                    catch,
                },
                frames,
            )
        }
        Braces::Finally {
            site,
            body: tried,
            catch,
        } => {
            let finally = Some(body);
            over_with(
                alloc,
                Stmt::Try {
                    site,
                    body: tried,
                    catch,
                    finally,
                },
                frames,
            )
        }
    }
}

/// `}` of a list.
pub fn close_braces(alloc: Global, frames: Pile<Frame>) -> Result<Parser, Stop>
    ensures { Gives (λ x. x) result (close_braces frames) }
{
    let mut frames = frames;
    match frames.pop() {
        Some(Frame::List { braces, body }) => close_list(alloc, braces, body, frames),
        other => refused_at(other, frames),
    }
}
