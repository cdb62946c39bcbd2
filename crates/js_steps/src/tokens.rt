//! One token more, and the end.

ghost use Rattle.std.specs.Prelude.{◌≡◌, ◌∷◌, Err, option_and_then};
ghost use Rattle.js_reading.specs.Statements.{after, over_of};
ghost use Rattle.js_reading.specs.declared.mode.Opening.TheVariants as openings;
ghost use Rattle.js_reading.specs.Reading.{ends_before, step_mark, ended_operand, close_brace_of, on_close_brace, ends_by, operand_on, heading_on, step, ended, no_more, ended_ending, ended_trying, ended_opening, ends};
ghost use Rattle.js_reading.specs.declared.frame.Frame.TheVariants as frame;
ghost use Rattle.js_reading.specs.declared.frame.Braces.TheVariants as braces;
ghost use Rattle.js_step_operands.specs.Answers.{Gives};
ghost use Rattle.js_step_operands.specs.declared.stop.Stop.TheVariants as stop;

use crate::endings::{bare_return, braces_on, caught, ending_on, trying_on};
use crate::marks::{on_close_round, on_comma};
use crate::openings::opening_on;
use js_ast::{Expr, Identifier, Member, StepOp, Stmt};
use js_grammar::{Token, TokenKind};
use js_reading::{
    Braces, Bracket, Declaring, Ending, Frame, Heading, Mode, Opening, Operand, Over, Parser, Part,
    Pile, Trying,
};
use js_step_brackets::{
    arrow_due_on, object, on_close_square, on_colon, open_on, parameter_on, parameters_on,
    piece_on, with_member,
};
use js_step_operands::{
    Stop, continues, discard, discard_braces, discard_frame, discard_operand, discard_part,
    discard_token, discard_value, pushed, refused, stopped, want,
};
use js_step_operators::{continued, on_arrow, on_step, whole};
use js_step_statements::{
    after, bare, below, boxed, is_let, is_statement, item, on_semicolon, over_of, settle, with_stmt,
};
use sqlite_items::{Boxed, Items};
use std::alloc::Global;

/// The statement ends with the expression, and the token is behind it.
fn after_expression(
    alloc: Global,
    site: u32,
    value: Boxed<Expr>,
    frames: Pile<Frame>,
    kind: TokenKind,
) -> Result<Parser, Stop>
    ensures { Gives (λ x. x) result (option_and_then (λ o. after site o.value o.frames kind) (over_of value frames)) }
{
    match over_of(alloc, value, frames) {
        Ok(over) => after(alloc, site, over.value, over.frames, kind),
        Err(stop) => {
            discard_token(kind);
            Err(stop)
        }
    }
}

/// The statement ends, and the token begins another or ends the list.
fn ends_before(
    alloc: Global,
    site: u32,
    start: u32,
    operand: Operand,
    frames: Pile<Frame>,
    kind: TokenKind,
) -> Result<Parser, Stop>
    ensures { Gives (λ x. x) result (ends_before site start operand frames kind) }
{
    match whole(alloc, start, operand, frames) {
        Ok(closed) => after_expression(alloc, site, closed.value, closed.frames, kind),
        Err(stop) => {
            discard_token(kind);
            Err(stop)
        }
    }
}

/// `}` of an object, or of the list around the statement.
fn close_brace_of(
    alloc: Global,
    site: u32,
    value: Boxed<Expr>,
    frames: Pile<Frame>,
) -> Result<Parser, Stop>
    ensures { Gives (λ x. x) result (close_brace_of site value frames) }
{
    let mut frames = frames;
    match frames.pop() {
        None => {
            discard_value(value);
            refused(frames)
        }
        Some(
            Frame::Bracket(
                Bracket::Member {
                    site,
                    members,
                    key_site,
                    key,
                },
            ),
        ) => {
            let member = Member::Value {
                site: key_site,
                key,
                value,
            };
            match with_member(members, member) {
                Ok(members) => object(alloc, site, members, frames),
                Err(stop) => stopped(stop, frames),
            }
        }
        Some(frame) => match pushed(frames, frame) {
            Ok(frames) => after_expression(alloc, site, value, frames, TokenKind::CloseBrace),
            Err(stop) => {
                discard_value(value);
                Err(stop)
            }
        },
    }
}

fn on_close_brace(
    alloc: Global,
    site: u32,
    start: u32,
    operand: Operand,
    frames: Pile<Frame>,
) -> Result<Parser, Stop>
    ensures { Gives (λ x. x) result (on_close_brace site start operand frames) }
{
    match whole(alloc, start, operand, frames) {
        Ok(closed) => close_brace_of(alloc, site, closed.value, closed.frames),
        Err(stop) => Err(stop),
    }
}

/// `++` or `--`: on the operand's line behind it, else before the next statement's target.
fn step_mark(
    alloc: Global,
    line: bool,
    op: StepOp,
    site: u32,
    start: u32,
    operand: Operand,
    frames: Pile<Frame>,
) -> Result<Parser, Stop>
    ensures { Gives (λ x. x) result (step_mark line op site start operand frames) }
{
    if line {
        return ends_before(alloc, site, start, operand, frames, TokenKind::Step(op));
    }
    on_step(alloc, op, site, start, operand, frames)
}

/// A token behind the end of an expression.
fn ended_by(
    alloc: Global,
    line: bool,
    site: u32,
    start: u32,
    operand: Operand,
    frames: Pile<Frame>,
    kind: TokenKind,
) -> Result<Parser, Stop>
    ensures { Gives (λ x. x) result (ends_by line site start operand frames kind) }
{
    match kind {
        TokenKind::Arrow => on_arrow(alloc, line, start, operand, frames),
        TokenKind::Step(op) => step_mark(alloc, line, op, site, start, operand, frames),
        TokenKind::CloseRound => on_close_round(alloc, start, operand, frames),
        TokenKind::CloseSquare => on_close_square(alloc, start, operand, frames),
        TokenKind::CloseBrace => on_close_brace(alloc, site, start, operand, frames),
        TokenKind::Comma => on_comma(alloc, start, operand, frames),
        TokenKind::Colon => on_colon(alloc, start, operand, frames),
        TokenKind::Semicolon => on_semicolon(alloc, start, operand, frames),
        _ => {
            if line {
                return ends_before(alloc, site, start, operand, frames, kind);
            }
            discard_token(kind);
            discard_operand(operand);
            refused(frames)
        }
    }
}

fn operand_on(
    alloc: Global,
    line: bool,
    site: u32,
    start: u32,
    operand: Operand,
    frames: Pile<Frame>,
    kind: TokenKind,
) -> Result<Parser, Stop>
    ensures { Gives (λ x. x) result (operand_on line site start operand frames kind) }
{
    if continues(&operand, &kind) {
        return continued(alloc, site, start, operand, frames, kind);
    }
    ended_by(alloc, line, site, start, operand, frames, kind)
}

fn heading_on(
    alloc: Global,
    line: bool,
    heading: Heading,
    at: u32,
    frames: Pile<Frame>,
    kind: TokenKind,
) -> Result<Parser, Stop>
    ensures { Gives (λ x. x) result (heading_on line heading at frames kind) }
{
    match heading {
        Heading::Open(header) => {
            let parser = open_on(alloc, header, frames, &kind);
            discard_token(kind);
            parser
        }
        Heading::Parameters { header, names } => parameters_on(header, names, at, frames, kind),
        Heading::Parameter { header, names } => {
            let parser = parameter_on(header, names, frames, &kind);
            discard_token(kind);
            parser
        }
        Heading::Arrow { start, names } => {
            let parser = arrow_due_on(line, start, names, frames, &kind);
            discard_token(kind);
            parser
        }
        Heading::Braces(braces) => {
            let parser = braces_on(alloc, braces, frames, &kind);
            discard_token(kind);
            parser
        }
    }
}

/// One token more.
pub fn step(alloc: Global, parser: Parser, token: Token) -> Result<Parser, Stop>
    ensures { Gives (λ x. x) result (step parser token) }
{
    let Parser { mode, frames } = parser;
    let Token {
        kind,
        start: at,
        line_before: line,
    } = token;
    match mode {
        Mode::Statement => item(alloc, at, frames, kind),
        Mode::Below => below(alloc, at, frames, kind),
        Mode::Want => want(alloc, at, frames, kind),
        Mode::Operand { start, operand } => {
            operand_on(alloc, line, at, start, operand, frames, kind)
        }
        Mode::Ending(ending) => ending_on(alloc, line, ending, at, frames, kind),
        Mode::Trying(trying) => trying_on(alloc, trying, at, frames, kind),
        Mode::Opening(opening) => opening_on(alloc, line, opening, at, frames, kind),
        Mode::Heading(heading) => heading_on(alloc, line, heading, at, frames, kind),
        Mode::Piece(piece) => piece_on(alloc, piece, at, frames, kind),
    }
}

/// The script can't end here.
fn refused_end(frames: Pile<Frame>) -> Result<Items<Stmt>, Stop>
    ensures { result ≡ Err stop.Syntax }
{
    discard(frames);
    Err(Stop::Syntax)
}

/// The statements of the script, where nothing else is around them.
fn alone(body: Items<Stmt>, frames: Pile<Frame>) -> Result<Items<Stmt>, Stop>
    ensures { Gives (λ x. x) result (no_more (frame.List braces.Script body ∷ frames)) }
{
    if frames.top().is_none() {
        discard(frames);
        return Ok(body);
    }
    drop(body);
    refused_end(frames)
}

/// The statements, where they are those of the script.
fn outermost(braces: Braces, body: Items<Stmt>, frames: Pile<Frame>) -> Result<Items<Stmt>, Stop>
    ensures { Gives (λ x. x) result (no_more (frame.List braces body ∷ frames)) }
{
    match braces {
        Braces::Script => alone(body, frames),
        other => {
            discard_braces(other);
            drop(body);
            refused_end(frames)
        }
    }
}

/// The statements of the script, where it may end.
fn no_more(frames: Pile<Frame>) -> Result<Items<Stmt>, Stop>
    ensures { Gives (λ x. x) result (no_more frames) }
{
    let mut frames = frames;
    match frames.pop() {
        Some(Frame::List { braces, body }) => outermost(braces, body, frames),
        other => {
            discard_frame(other);
            refused_end(frames)
        }
    }
}

/// The same behind its last statement.
fn ended(alloc: Global, stmt: Boxed<Stmt>, frames: Pile<Frame>) -> Result<Items<Stmt>, Stop>
    ensures { Gives (λ x. x) result (ended stmt frames) }
{
    match settle(alloc, false, stmt, frames) {
        Ok(Over { value, frames }) => match no_more(frames) {
            Ok(body) => with_stmt(body, value),
            Err(stop) => {
                drop(value);
                Err(stop)
            }
        },
        Err(stop) => Err(stop),
    }
}

/// The same where the statement is in no box.
fn ended_stmt(alloc: Global, stmt: Stmt, frames: Pile<Frame>) -> Result<Items<Stmt>, Stop>
    ensures { Gives (λ x. x) result (ended stmt frames) }
{
    match boxed(alloc, stmt) {
        Ok(stmt) => ended(alloc, stmt, frames),
        Err(stop) => {
            discard(frames);
            Err(stop)
        }
    }
}

fn ended_ending(alloc: Global, ending: Ending, frames: Pile<Frame>) -> Result<Items<Stmt>, Stop>
    ensures { Gives (λ x. x) result (ended_ending ending frames) }
{
    match ending {
        Ending::Over(stmt) => ended(alloc, stmt, frames),
        Ending::Do(stmt) => ended(alloc, stmt, frames),
        Ending::Jump(stmt) => ended(alloc, stmt, frames),
        Ending::Return { site } => ended_stmt(alloc, bare_return(site), frames),
        Ending::Throw { .. } => refused_end(frames),
    }
}

fn ended_trying(alloc: Global, trying: Trying, frames: Pile<Frame>) -> Result<Items<Stmt>, Stop>
    ensures { Gives (λ x. x) result (ended_trying trying frames) }
{
    match trying {
        Trying::Caught { site, body, catch } => {
            ended_stmt(alloc, caught(site, body, catch), frames)
        }
        other => {
            drop(other);
            refused_end(frames)
        }
    }
}

/// The same behind a declared name with no value.
fn ended_named(
    alloc: Global,
    declaring: Declaring,
    name: Identifier,
    frames: Pile<Frame>,
) -> Result<Items<Stmt>, Stop>
    ensures { Gives (λ x. x) result (ended_opening (openings.Named declaring name) frames) }
{
    if is_statement(declaring.place) && is_let(declaring.kind) {
        return match bare(alloc, declaring, name) {
            Ok(stmt) => ended(alloc, stmt, frames),
            Err(stop) => {
                discard(frames);
                Err(stop)
            }
        };
    }
    discard_part(Part::Declare { declaring, name });
    refused_end(frames)
}

fn ended_opening(alloc: Global, opening: Opening, frames: Pile<Frame>) -> Result<Items<Stmt>, Stop>
    ensures { Gives (λ x. x) result (ended_opening opening frames) }
{
    match opening {
        Opening::Named { declaring, name } => ended_named(alloc, declaring, name, frames),
        other => {
            drop(other);
            refused_end(frames)
        }
    }
}

fn ended_operand(
    alloc: Global,
    start: u32,
    operand: Operand,
    frames: Pile<Frame>,
) -> Result<Items<Stmt>, Stop>
    ensures { Gives (λ x. x) result (ended_operand start operand frames) }
{
    match whole(alloc, start, operand, frames) {
        Ok(closed) => match over_of(alloc, closed.value, closed.frames) {
            Ok(over) => ended(alloc, over.value, over.frames),
            Err(stop) => Err(stop),
        },
        Err(stop) => Err(stop),
    }
}

/// The script, where no token follows.
pub fn ends(alloc: Global, parser: Parser) -> Result<Items<Stmt>, Stop>
    ensures { Gives (λ x. x) result (ends parser) }
{
    let Parser { mode, frames } = parser;
    match mode {
        Mode::Statement => no_more(frames),
        Mode::Operand { start, operand } => ended_operand(alloc, start, operand, frames),
        Mode::Ending(ending) => ended_ending(alloc, ending, frames),
        Mode::Trying(trying) => ended_trying(alloc, trying, frames),
        Mode::Opening(opening) => ended_opening(alloc, opening, frames),
        Mode::Below => refused_end(frames),
        Mode::Want => refused_end(frames),
        Mode::Heading(heading) => {
            drop(heading);
            refused_end(frames)
        }
        Mode::Piece(piece) => {
            drop(piece);
            refused_end(frames)
        }
    }
}
