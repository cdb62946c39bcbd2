//! Texts between quotes (ECMA-262, section 12.9.4).

ghost use Rattle.std.specs.Prelude.{◌≡◌, ◌++◌, ℕ, List, IfOk, OnOk};
ghost use Rattle.std.specs.Option.{option_map};
ghost use Rattle.js_lexer.specs.Texts.{IsQuoted, IsText};
ghost use Rattle.js_lexer.specs.Escapes.{units_of, ClosesAt, HasText};

use crate::escapes::{Meaning, close, inside};
use crate::slices::first_of;
use js_units::{NoMemory, Units};
use std::alloc::Global;

/// What is behind the closing quote of a text whose opening one stands before the units.
pub fn after_text(quote: u16, units: &[u16]) -> Option<&[u16]>
    ensures { ClosesAt quote units.now (option_map (λ x. x.now) result) }
{
    let mut left = units;
    while let Some((_, behind)) = inside(quote, left) {
        left = behind;
    }
    close(quote, left)
}

fn push_meaning(out: &mut Units, meaning: Meaning) -> Result<(), NoMemory>
    ensures { OnOk result (out.new ≡ out.old ++ units_of meaning) }
{
    match meaning {
        Meaning::Nothing => {}
        Meaning::One(unit) => out.push(unit)?,
        Meaning::Two(first, second) => {
            out.push(first)?;
            out.push(second)?;
        }
    }
    Ok(())
}

/// What the units up to the closing quote stand for.
fn quoted_value(alloc: Global, quote: u16, units: &[u16]) -> Result<Units, NoMemory>
    ensures { (value rest : List ℕ) → IsQuoted quote units.now value rest → IfOk result (λ text. text ≡ value) }
{
    let mut out = Units::new(alloc);
    let mut left = units;
    while let Some((meaning, behind)) = inside(quote, left) {
        push_meaning(&mut out, meaning)?;
        left = behind;
    }
    Ok(out)
}

/// The string value of the text at the front.
pub fn text_value(alloc: Global, units: &[u16]) -> Result<Units, NoMemory>
    requires { HasText units.now }
    ensures { (value rest : List ℕ) → IsText units.now value rest → IfOk result (λ text. text ≡ value) }
{
    match first_of(units) {
        Some((quote, inside)) => quoted_value(alloc, quote, inside),
        None => unreachable!(),
    }
}
