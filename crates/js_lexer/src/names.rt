//! Names and reserved words (ECMA-262, section 12.7).

ghost use Rattle.std.specs.Prelude.{◌≡◌};
ghost use Rattle.js_units.specs.Characters.{is_name_part};
ghost use Rattle.js_lexer.specs.Runs.{skip_while};
ghost use Rattle.js_lexer.specs.Words.{name_at};

use crate::tables::is_reserved;
use crate::token::{Lexeme, TokenKind};
use js_units::is_name_part;

/// What is behind the parts of a name at the front.
fn after_parts(units: &[u16]) -> &[u16]
    ensures { result.now ≡ skip_while is_name_part units.now }
{
    let mut left = units;
    while let [first, rest @ ..] = left {
        if !is_name_part(*first) {
            return left;
        }
        left = rest;
    }
    left
}

/// The longest name at the front, which may be a reserved word.
#[tactic(auto, unfolding(crate::specs::Words::name_at), using(crate::proofs::Spans::skip_le))]
pub fn name(units: &[u16]) -> (Lexeme, &[u16])
    ensures { (result.0, result.1.now) ≡ name_at units.now }
{
    let rest = after_parts(units);
    if is_reserved(&units[..units.len() - rest.len()]) {
        (Lexeme::Token(TokenKind::Word), rest)
    } else {
        (Lexeme::Token(TokenKind::Name), rest)
    }
}
