//! What tokens stand for.

ghost use Rattle.std.specs.Prelude.{◌≡◌, ◌≤◌, ℕ, List, drop, IfOk};
ghost use Rattle.js_lexer.specs.Numbers.{IsNumeral, max_safe};
ghost use Rattle.js_lexer.specs.Tokens.{IsTokenOf};
ghost use Rattle.js_lexer.specs.Values.{HasUnits, Stands, IsFlags};

use crate::numbers::number;
use crate::patterns::pattern_parts;
use crate::slices::units_from;
use crate::texts::text_value;
use crate::token::{Token, TokenKind};
use js_units::{NoMemory, Units};
use std::alloc::Global;

/// The value of a Number, at most 2^53 - 1. Takes no memory.
pub fn number_of(text: &Units, token: &Token) -> u64
    requires kind { token.now.kind ≡ TokenKind.Number }
    requires is_token { IsTokenOf text.now token.now }
    ensures value { IsNumeral (drop token.now.start text.now) result (drop token.now.end text.now) }
    ensures safe { result ≤ max_safe }
    ensures only { (value : ℕ) (rest : List ℕ)
        → IsNumeral (drop token.now.start text.now) value rest → value ≡ result }
{
    match number(units_from(text.as_slice(), token.start)) {
        Some((value, _)) => value,
        None => unreachable!(),
    }
}

fn copy(alloc: Global, units: &[u16]) -> Result<Units, NoMemory>
    ensures { IfOk result (λ text. text ≡ units.now) }
{
    let mut text = Units::new(alloc);
    for unit in units {
        text.push(*unit)?;
    }
    Ok(text)
}

/// The units of a Name or a Word, the string value of a Text, the body of a Pattern between its
/// slashes.
#[tactic(auto, using(crate::proofs::TokenValues::stands_same))]
pub fn text_of(alloc: Global, text: &Units, token: &Token) -> Result<Units, NoMemory>
    requires kind { HasUnits token.now.kind }
    requires is_token { IsTokenOf text.now token.now }
    ensures value { IfOk result (λ value. Stands token.now.kind text.now token.now value) }
    // a token stands for one value
    ensures only { (one other : List ℕ) → Stands token.now.kind text.now token.now one
        → Stands token.now.kind text.now token.now other → one ≡ other }
{
    let units = text.as_slice();
    let from = units_from(units, token.start);
    match token.kind {
        TokenKind::Text => text_value(alloc, from),
        TokenKind::Pattern => copy(alloc, pattern_parts(from).0),
        _ => copy(alloc, &units[token.start..token.end]),
    }
}

/// The flags of a Pattern.
pub fn flags_of(alloc: Global, text: &Units, token: &Token) -> Result<Units, NoMemory>
    requires kind { token.now.kind ≡ TokenKind.Pattern }
    requires is_token { IsTokenOf text.now token.now }
    ensures flags { IfOk result (λ flags. IsFlags text.now token.now flags) }
    // a pattern has one list of flags
    ensures only { (one other : List ℕ) → IsFlags text.now token.now one
        → IsFlags text.now token.now other → one ≡ other }
{
    copy(
        alloc,
        pattern_parts(units_from(text.as_slice(), token.start)).1,
    )
}
