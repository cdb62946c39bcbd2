//! What is let go of where a step isn't taken. It ends here, so that no crate above spells out all that frames hold.
//! For the same reason the steps hand errors on by `match`: `?` is a generic call at those types in each of them.

ghost use Rattle.std.specs.Prelude.{◌≡◌, Err};
ghost use Rattle.js_step_operands.specs.declared.stop.Stop.TheVariants as stop;

use crate::stop::Stop;
use js_ast::{Expr, Suffix};
use js_grammar::TokenKind;
use js_reading::{Braces, Bracket, Frame, Operand, Parser, Part, Pile};
use sqlite_items::{Boxed, Items};

/// The frames end.
pub fn discard(frames: Pile<Frame>) {
    drop(frames);
}

/// The frame ends.
pub fn discard_frame(frame: Option<Frame>) {
    drop(frame);
}

/// The braces around statements end.
pub fn discard_braces(braces: Braces) {
    drop(braces);
}

/// The part of a statement ends.
pub fn discard_part(part: Part) {
    drop(part);
}

/// The operand ends.
pub fn discard_operand(operand: Operand) {
    drop(operand);
}

/// The tree ends.
pub fn discard_value(value: Boxed<Expr>) {
    drop(value);
}

/// The first part of a call and its suffixes end.
pub fn discard_call(first: Boxed<Expr>, suffixes: Items<Suffix<Boxed<Expr>>>) {
    drop(first);
    drop(suffixes);
}

/// The token ends.
pub fn discard_token(kind: TokenKind) {
    drop(kind);
}

/// No step is taken, for that reason.
pub fn stopped(stop: Stop, frames: Pile<Frame>) -> Result<Parser, Stop>
    ensures { result ≡ Err stop }
{
    drop(frames);
    Err(stop)
}

/// The token can't stand here.
pub fn refused(frames: Pile<Frame>) -> Result<Parser, Stop>
    ensures { result ≡ Err stop.Syntax }
{
    stopped(Stop::Syntax, frames)
}

/// The token can't stand here, directly inside the frame.
pub fn refused_at(frame: Option<Frame>, frames: Pile<Frame>) -> Result<Parser, Stop>
    ensures { result ≡ Err stop.Syntax }
{
    drop(frame);
    stopped(Stop::Syntax, frames)
}

/// The token can't stand here, directly inside the bracket.
pub fn refused_in(bracket: Bracket, frames: Pile<Frame>) -> Result<Parser, Stop>
    ensures { result ≡ Err stop.Syntax }
{
    drop(bracket);
    stopped(Stop::Syntax, frames)
}
