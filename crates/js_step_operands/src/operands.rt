//! What an operand is, once it is read.

ghost use Rattle.std.specs.Prelude.{◌≡◌, ◌∷◌, ◌++◌, [], Some};
ghost use Rattle.js_grammar.specs.Phrases.{continues as continues_with, call, step, is_of};
ghost use Rattle.js_ast.specs.declared.parts.Target.TheVariants as target;
ghost use Rattle.js_grammar.specs.Grammar.{call_of};
ghost use Rattle.js_ast.specs.declared.parts.Suffix.TheVariants as suffix;
ghost use Rattle.js_reading.specs.Operands.{value_of, tail_of, target_of, parameter_of, first_of, suffixes_of, wrapped, is_literal};
ghost use Rattle.js_step_operands.specs.Answers.{Gives, Makes};

use crate::refusals::{discard_operand, discard_value};
use crate::stop::Stop;
use js_ast::{Access, Expr, Identifier, Suffix, Target};
use js_grammar::TokenKind;
use js_reading::Operand;
use js_units::Units;
use sqlite_items::{Boxed, Items};
use std::alloc::Global;

/// A tree in its box.
pub fn boxed(alloc: Global, tree: Expr) -> Result<Boxed<Expr>, Stop>
    ensures { Makes result tree }
{
    Ok(Boxed::new(alloc, tree)?)
}

fn call_of(
    alloc: Global,
    first: Boxed<Expr>,
    suffixes: Items<Suffix<Boxed<Expr>>>,
) -> Result<Boxed<Expr>, Stop>
    ensures { Makes result (call_of first suffixes) }
{
    match suffixes.as_slice() {
        [] => {
            drop(suffixes);
            Ok(first)
        }
        [_, ..] => boxed(alloc, Expr::Call { first, suffixes }),
    }
}

/// A suffix more.
pub fn suffixed(
    suffixes: Items<Suffix<Boxed<Expr>>>,
    last: Suffix<Boxed<Expr>>,
) -> Result<Items<Suffix<Boxed<Expr>>>, Stop>
    ensures { Makes result (suffixes ++ last ∷ []) }
{
    let mut suffixes = suffixes;
    suffixes.push(last)?;
    Ok(suffixes)
}

fn accessed(
    alloc: Global,
    first: Boxed<Expr>,
    earlier: Items<Suffix<Boxed<Expr>>>,
    last: Access<Boxed<Expr>>,
) -> Result<Boxed<Expr>, Stop>
    ensures { Makes result (Expr.Call first (earlier ++ suffix.Access last ∷ [])) }
{
    match suffixed(earlier, Suffix::Access(last)) {
        Ok(suffixes) => boxed(alloc, Expr::Call { first, suffixes }),
        Err(stop) => {
            discard_value(first);
            Err(stop)
        }
    }
}

fn name(alloc: Global, name: Identifier) -> Result<Boxed<Expr>, Stop>
    ensures { Makes result (Expr.Name name) }
{
    boxed(alloc, Expr::Name(name))
}

/// The operand's tree.
pub fn value_of(alloc: Global, operand: Operand) -> Result<Boxed<Expr>, Stop>
    ensures { Makes result (value_of operand) }
{
    match operand {
        Operand::Name(found) => name(alloc, found),
        Operand::RoundName(found) => name(alloc, found),
        Operand::DeepName(found) => name(alloc, found),
        Operand::Access {
            first,
            earlier,
            last,
        } => accessed(alloc, first, earlier, last),
        Operand::RoundAccess {
            first,
            earlier,
            last,
        } => accessed(alloc, first, earlier, last),
        Operand::Call { first, suffixes } => boxed(alloc, Expr::Call { first, suffixes }),
        Operand::Literal(value) => Ok(value),
        Operand::Primary(value) => Ok(value),
        Operand::Stepped(value) => Ok(value),
        Operand::Braced(value) => Ok(value),
    }
}

fn continues_call(kind: &TokenKind) -> bool
    ensures { result ≡ continues_with call kind.now }
{
    match kind {
        TokenKind::Binary(_) => true,
        TokenKind::Logical(_) => true,
        TokenKind::Assign(_) => true,
        TokenKind::Question => true,
        TokenKind::Dot => true,
        TokenKind::OpenRound => true,
        TokenKind::OpenSquare => true,
        TokenKind::Pattern => true,
        _ => false,
    }
}

fn continues_step(kind: &TokenKind) -> bool
    ensures { result ≡ continues_with step kind.now }
{
    match kind {
        TokenKind::Binary(_) => true,
        TokenKind::Logical(_) => true,
        TokenKind::Question => true,
        TokenKind::Pattern => true,
        _ => false,
    }
}

/// Whether the token goes on with the expression that ends in the operand.
pub fn continues(operand: &Operand, kind: &TokenKind) -> bool
    ensures { result ≡ continues_with (tail_of operand.now) kind.now }
{
    match operand {
        Operand::Stepped(_) => continues_step(kind),
        Operand::Braced(_) => false,
        _ => continues_call(kind),
    }
}

fn property_target(
    alloc: Global,
    first: Boxed<Expr>,
    earlier: Items<Suffix<Boxed<Expr>>>,
    last: Access<Boxed<Expr>>,
) -> Result<Target<Boxed<Expr>>, Stop>
    ensures { Makes result (target.Access (call_of first earlier) last) }
{
    match call_of(alloc, first, earlier) {
        Ok(base) => Ok(Target::Access { base, access: last }),
        Err(stop) => {
            drop(last);
            Err(stop)
        }
    }
}

/// What may be assigned.
pub fn target_of(alloc: Global, operand: Operand) -> Result<Target<Boxed<Expr>>, Stop>
    ensures { Gives (λ x. x) result (target_of operand) }
{
    match operand {
        Operand::Name(name) => Ok(Target::Name(name)),
        Operand::RoundName(name) => Ok(Target::Name(name)),
        Operand::DeepName(name) => Ok(Target::Name(name)),
        Operand::Access {
            first,
            earlier,
            last,
        } => property_target(alloc, first, earlier, last),
        Operand::RoundAccess {
            first,
            earlier,
            last,
        } => property_target(alloc, first, earlier, last),
        other => {
            discard_operand(other);
            Err(Stop::Syntax)
        }
    }
}

/// The one name in front of an arrow.
pub fn parameter_of(operand: Operand) -> Result<Identifier, Stop>
    ensures { Gives (λ x. x) result (parameter_of operand) }
{
    match operand {
        Operand::Name(name) => Ok(name),
        Operand::RoundName(name) => Ok(name),
        other => {
            discard_operand(other);
            Err(Stop::Syntax)
        }
    }
}

/// The first part of a call, and the suffixes behind it.
pub fn call_parts(
    alloc: Global,
    operand: Operand,
) -> Result<(Boxed<Expr>, Items<Suffix<Boxed<Expr>>>), Stop>
    ensures { Gives (λ x. x) result (Some (first_of operand, suffixes_of operand)) }
{
    match operand {
        Operand::Access {
            first,
            earlier,
            last,
        } => match suffixed(earlier, Suffix::Access(last)) {
            Ok(suffixes) => Ok((first, suffixes)),
            Err(stop) => {
                discard_value(first);
                Err(stop)
            }
        },
        Operand::Call { first, suffixes } => Ok((first, suffixes)),
        operand => match value_of(alloc, operand) {
            Ok(value) => Ok((value, Items::new(alloc))),
            Err(stop) => Err(stop),
        },
    }
}

/// The operand between parentheses.
pub fn wrapped(alloc: Global, operand: Operand) -> Result<Operand, Stop>
    ensures { Makes result (wrapped operand) }
{
    match operand {
        Operand::Name(name) => Ok(Operand::RoundName(name)),
        Operand::RoundName(name) => Ok(Operand::DeepName(name)),
        Operand::DeepName(name) => Ok(Operand::DeepName(name)),
        Operand::Access {
            first,
            earlier,
            last,
        } => Ok(Operand::RoundAccess {
            first,
            earlier,
            last,
        }),
        Operand::RoundAccess {
            first,
            earlier,
            last,
        } => {
            Ok(Operand::RoundAccess {
                first,
                earlier,
                last,
            })
        }
        operand => match value_of(alloc, operand) {
            Ok(value) => Ok(Operand::Primary(value)),
            Err(stop) => Err(stop),
        },
    }
}

/// Whether it is a number or a text alone.
pub fn is_literal(operand: &Operand) -> bool
    ensures { result ≡ is_literal operand.now }
{
    matches!(operand, Operand::Literal(_))
}

/// Whether a name is `of`.
pub fn is_of(name: &Units) -> bool
    ensures { result ≡ is_of name.now }
{
    name.equals_bytes(b"of")
}
