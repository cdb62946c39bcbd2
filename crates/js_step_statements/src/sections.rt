//! Marks behind an expression that is a part of a statement.

ghost use Rattle.std.specs.Prelude.{◌≡◌, ◌∷◌, ◌++◌, []};
ghost use Rattle.js_reading.specs.Statements.{is_statement, is_let, of_part, over_of, over, semicolon_part, close_round_part, comma_part, declared, declares_more, declaration_over, do_over, bare};
ghost use Rattle.js_reading.specs.Reading.{semicolon_of, on_semicolon};
ghost use Rattle.js_step_operands.specs.Answers.{Gives, Makes};

use js_ast::{DeclarationKind, Declarator, Expr, Identifier, LoopHead, Stmt};
use js_reading::{
    Below, Declaring, Ending, Frame, Mode, Opening, Operand, Over, Parser, Part, Pile, Place,
};
use js_step_operands::{
    Stop, below_due, discard, discard_frame, discard_part, discard_value, refused, refused_at,
    stopped, wants,
};
use js_step_operators::whole;
use sqlite_items::{Boxed, Items};
use std::alloc::Global;

/// Whether a declaration is a statement.
pub fn is_statement(place: Place) -> bool
    ensures { result ≡ is_statement place }
{
    match place {
        Place::Statement => true,
        Place::Loop => false,
    }
}

/// Whether a name may be declared without a value.
pub fn is_let(kind: DeclarationKind) -> bool
    ensures { result ≡ is_let kind }
{
    match kind {
        DeclarationKind::Let => true,
        DeclarationKind::Const => false,
    }
}

/// A declared name more.
pub fn with_declarator(
    declarators: Items<Declarator<Boxed<Expr>>>,
    name: Identifier,
    value: Option<Boxed<Expr>>,
) -> Result<Items<Declarator<Boxed<Expr>>>, Stop>
    ensures { Makes result (declarators ++ record { name = name; value = value } ∷ []) }
{
    let mut declarators = declarators;
    declarators.push(Declarator { name, value })?;
    Ok(declarators)
}

/// A statement in a box.
pub fn boxed(alloc: Global, stmt: Stmt) -> Result<Boxed<Stmt>, Stop>
    ensures { Makes result stmt }
{
    Ok(Boxed::new(alloc, stmt)?)
}

fn declared(
    alloc: Global,
    declaring: Declaring,
    name: Identifier,
    value: Option<Boxed<Expr>>,
) -> Result<Boxed<Stmt>, Stop>
    ensures { Makes result (declared declaring name value) }
{
    let Declaring {
        site,
        kind,
        declarators,
        ..
    } = declaring;
    match with_declarator(declarators, name, value) {
        Ok(declarators) => boxed(
            alloc,
            Stmt::Declare {
                site,
                kind,
                declarators,
            },
        ),
        Err(stop) => Err(stop),
    }
}

/// The declaration that ends with a name.
pub fn bare(alloc: Global, declaring: Declaring, name: Identifier) -> Result<Boxed<Stmt>, Stop>
    ensures { Makes result (bare declaring name) }
{
    declared(alloc, declaring, name, None)
}

/// The statement that ends with its expression.
fn of_part(alloc: Global, part: Part, value: Boxed<Expr>) -> Result<Boxed<Stmt>, Stop>
    ensures { Gives (λ x. x) result (of_part part value) }
{
    match part {
        Part::Express { site } => boxed(alloc, Stmt::Express { site, value }),
        Part::Declare { declaring, name } => {
            if is_statement(declaring.place) {
                return declared(alloc, declaring, name, Some(value));
            }
            discard_value(value);
            discard_part(Part::Declare { declaring, name });
            Err(Stop::Syntax)
        }
        Part::Return { site } => {
            boxed(
                alloc,
                Stmt::Return {
                    site,
                    value: Some(value),
                },
            )
        }
        Part::Throw { site } => boxed(alloc, Stmt::Throw { site, value }),
        other => {
            discard_value(value);
            discard_part(other);
            Err(Stop::Syntax)
        }
    }
}

/// The statement that ends with its expression, and what is around it.
pub fn over_of(alloc: Global, value: Boxed<Expr>, frames: Pile<Frame>) -> Result<Over, Stop>
    ensures { Gives (λ x. x) result (over_of value frames) }
{
    let mut frames = frames;
    match frames.pop() {
        Some(Frame::Part(part)) => match of_part(alloc, part, value) {
            Ok(value) => Ok(Over { value, frames }),
            Err(stop) => {
                discard(frames);
                Err(stop)
            }
        },
        other => {
            discard_value(value);
            discard_frame(other);
            discard(frames);
            Err(Stop::Syntax)
        }
    }
}

/// A statement that is over.
pub fn over(stmt: Boxed<Stmt>, frames: Pile<Frame>) -> Parser
    ensures { result ≡ over stmt frames }
{
    Parser {
        mode: Mode::Ending(Ending::Over(stmt)),
        frames,
    }
}

/// The end of a declaration: a statement, or the first part of a `for`.
pub fn declaration_over(
    alloc: Global,
    declaring: Declaring,
    name: Identifier,
    value: Option<Boxed<Expr>>,
    frames: Pile<Frame>,
) -> Result<Parser, Stop>
    ensures { Makes result (declaration_over declaring name value frames) }
{
    if is_statement(declaring.place) {
        return match declared(alloc, declaring, name, value) {
            Ok(stmt) => Ok(over(stmt, frames)),
            Err(stop) => stopped(stop, frames),
        };
    }
    let Declaring {
        site,
        kind,
        declarators,
        ..
    } = declaring;
    match with_declarator(declarators, name, value) {
        Ok(declarators) => {
            let head = LoopHead::Declare { kind, declarators };
            wants(Frame::Part(Part::ForTest { site, head }), frames)
        }
        Err(stop) => stopped(stop, frames),
    }
}

fn semicolon_part(
    alloc: Global,
    value: Boxed<Expr>,
    part: Part,
    frames: Pile<Frame>,
) -> Result<Parser, Stop>
    ensures { Gives (λ x. x) result (semicolon_part value part frames) }
{
    match part {
        Part::ForFirst { site } => {
            let head = LoopHead::Value(value);
            wants(Frame::Part(Part::ForTest { site, head }), frames)
        }
        Part::ForTest { site, head } => {
            let test = Some(value);
            wants(Frame::Part(Part::ForUpdate { site, head, test }), frames)
        }
        Part::Declare { declaring, name } => {
            declaration_over(alloc, declaring, name, Some(value), frames)
        }
        part => match of_part(alloc, part, value) {
            Ok(stmt) => Ok(over(stmt, frames)),
            Err(stop) => stopped(stop, frames),
        },
    }
}

fn semicolon_of(alloc: Global, value: Boxed<Expr>, frames: Pile<Frame>) -> Result<Parser, Stop>
    ensures { Gives (λ x. x) result (semicolon_of value frames) }
{
    let mut frames = frames;
    match frames.pop() {
        Some(Frame::Part(part)) => semicolon_part(alloc, value, part, frames),
        other => {
            discard_value(value);
            refused_at(other, frames)
        }
    }
}

/// `;` behind an expression.
pub fn on_semicolon(
    alloc: Global,
    start: u32,
    operand: Operand,
    frames: Pile<Frame>,
) -> Result<Parser, Stop>
    ensures { Gives (λ x. x) result (on_semicolon start operand frames) }
{
    match whole(alloc, start, operand, frames) {
        Ok(closed) => semicolon_of(alloc, closed.value, closed.frames),
        Err(stop) => Err(stop),
    }
}

fn do_over(
    alloc: Global,
    site: u32,
    body: Boxed<Stmt>,
    test_site: u32,
    test: Boxed<Expr>,
    frames: Pile<Frame>,
) -> Result<Parser, Stop>
    ensures { Makes result (do_over site body test_site test frames) }
{
    let stmt = Stmt::Do {
        site,
        body,
        test_site,
        test,
    };
    match boxed(alloc, stmt) {
        Ok(stmt) => Ok(Parser {
            mode: Mode::Ending(Ending::Do(stmt)),
            frames,
        }),
        Err(stop) => stopped(stop, frames),
    }
}

/// `)` behind an expression that is a part of a statement.
pub fn close_round_part(
    alloc: Global,
    value: Boxed<Expr>,
    part: Part,
    frames: Pile<Frame>,
) -> Result<Parser, Stop>
    ensures { Gives (λ x. x) result (close_round_part value part frames) }
{
    match part {
        Part::If { arms, site } => below_due(
            Below::Then {
                arms,
                site,
                test: value,
            },
            frames,
        ),
        Part::While { site } => below_due(Below::While { site, test: value }, frames),
        Part::Do {
            site,
            body,
            test_site,
        } => { do_over(alloc, site, body, test_site, value, frames) }
        Part::ForUpdate { site, head, test } => {
            let update = Some(value);
            below_due(
                Below::For {
                    site,
                    head,
                    test,
                    update,
                },
                frames,
            )
        }
        Part::ForOf { site, kind, name } => {
            below_due(
                Below::ForOf {
                    site,
                    kind,
                    name,
                    items: value,
                },
                frames,
            )
        }
        other => {
            discard_value(value);
            discard_part(other);
            refused(frames)
        }
    }
}

/// `,` behind a declared name or its value.
pub fn declares_more(
    declaring: Declaring,
    name: Identifier,
    value: Option<Boxed<Expr>>,
    frames: Pile<Frame>,
) -> Result<Parser, Stop>
    ensures { Makes result (declares_more declaring name value frames) }
{
    let Declaring {
        place,
        site,
        kind,
        declarators,
    } = declaring;
    match with_declarator(declarators, name, value) {
        Ok(declarators) => {
            let declaring = Declaring {
                place,
                site,
                kind,
                declarators,
            };
            Ok(Parser {
                mode: Mode::Opening(Opening::Declare(declaring)),
                frames,
            })
        }
        Err(stop) => stopped(stop, frames),
    }
}

/// `,` behind an expression that is a part of a statement.
pub fn comma_part(
    alloc: Global,
    value: Boxed<Expr>,
    part: Part,
    frames: Pile<Frame>,
) -> Result<Parser, Stop>
    ensures { Gives (λ x. x) result (comma_part value part frames) }
{
    match part {
        Part::Declare { declaring, name } => { declares_more(declaring, name, Some(value), frames) }
        other => {
            discard_value(value);
            discard_part(other);
            refused(frames)
        }
    }
}
