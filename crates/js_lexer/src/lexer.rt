//! The next token of a text (ECMA-262, section 12).

ghost use Rattle.std.specs.Prelude.{◌≡◌, ◌≢◌, ◌<◌, ◌≤◌, ◌==◌, ◌||◌, length, drop, Result, IfOk};
ghost use Rattle.std.specs.Option.{option_map};
ghost use Rattle.js_lexer.specs.Reading.{wants_pattern, family_of, TextFound, PatternFound, Reads, LongestToken};
ghost use Rattle.js_lexer.specs.Trivia.{IsTrivia};
ghost use Rattle.js_lexer.specs.Tokens.{Next};
ghost use Rattle.js_lexer.specs.declared.token.Token.{Token};
ghost use Rattle.js_lexer.specs.declared.token.LexRefusal.{LexRefusal};

use crate::classes::{SLASH, is_quote};
use crate::marks::mark;
use crate::names::name;
use crate::numbers::numeral;
use crate::patterns::after_pattern;
use crate::slices::{first_of, units_from};
use crate::texts::after_text;
use crate::token::{Goal, LexRefusal, Lexeme, Token, TokenKind};
use crate::trivia::after_trivia;
use js_units::{Units, is_digit, is_name_start};

fn wants_pattern(goal: Goal) -> bool
    ensures { result ≡ wants_pattern goal }
{
    match goal {
        Goal::Division => false,
        Goal::Pattern => true,
    }
}

/// What a lexeme is by its first unit.
#[derive(Clone, Copy)]
pub enum Family {
    Name,
    Number,
    Text,
    Pattern,
    Mark,
}

#[tactic(auto, unfolding(crate::specs::Reading::family_of))]
fn family_of(goal: Goal, first: u16) -> Family
    ensures { result ≡ family_of goal first }
{
    if is_name_start(first) {
        return Family::Name;
    }
    if is_digit(first) {
        return Family::Number;
    }
    if is_quote(first) {
        return Family::Text;
    }
    if first == SLASH && wants_pattern(goal) {
        return Family::Pattern;
    }
    Family::Mark
}

fn text(quote: u16, inside: &[u16]) -> Option<(Lexeme, &[u16])>
    ensures { TextFound quote inside.now (option_map (λ x. (x.0, x.1.now)) result) }
{
    let rest = after_text(quote, inside)?;
    Some((Lexeme::Token(TokenKind::Text), rest))
}

fn pattern(inside: &[u16]) -> Option<(Lexeme, &[u16])>
    ensures { PatternFound inside.now (option_map (λ x. (x.0, x.1.now)) result) }
{
    let rest = after_pattern(inside)?;
    Some((Lexeme::Token(TokenKind::Pattern), rest))
}

/// The longest lexeme at the front, and what is behind it.
fn lexeme(goal: Goal, starts_line: bool, units: &[u16]) -> Option<(Lexeme, &[u16])>
    ensures { Reads goal starts_line units.now (option_map (λ x. (x.0, x.1.now)) result) }
{
    let Some((first, behind)) = first_of(units) else {
        return Some((Lexeme::Token(TokenKind::Finish), units));
    };
    match family_of(goal, first) {
        Family::Name => Some(name(units)),
        Family::Number => numeral(units),
        Family::Text => text(first, behind),
        Family::Pattern => pattern(behind),
        Family::Mark => mark(starts_line, units),
    }
}

/// The token that is the longest lexeme at the front, and what is behind it.
fn longest_token(goal: Goal, starts_line: bool, units: &[u16]) -> Option<(TokenKind, &[u16])>
    ensures { LongestToken goal starts_line units.now (option_map (λ x. (x.0, x.1.now)) result) }
{
    match lexeme(goal, starts_line, units) {
        Some((Lexeme::Token(kind), rest)) => Some((kind, rest)),
        Some((Lexeme::Refused, _)) => None,
        None => None,
    }
}

fn starts_line(at: usize, line_before: bool) -> bool
    ensures { result ≡ (at == 0 || line_before) }
{
    at == 0 || line_before
}

/// What is behind the trivia from a place on, and whether a line end stands in them.
fn after_gap(units: &[u16], at: usize) -> (bool, &[u16])
    requires { at ≤ length units.now }
    ensures { IsTrivia (at == 0) (drop at units.now) result.0 result.1.now }
{
    after_trivia(at == 0, units_from(units, at))
}

/// The next token of the units.
fn token_in(units: &[u16], at: usize, goal: Goal) -> Result<Token, LexRefusal>
    requires { at ≤ length units.now }
    ensures next { Next units.now at goal result }
    ensures only { (other : Result Token LexRefusal) → Next units.now at goal other → other ≡ result }
    ensures advances { IfOk result (λ t. t.kind ≢ TokenKind.Finish → t.start < t.end) }
    ensures finish { IfOk result (λ t. t.kind ≡ TokenKind.Finish
        → (t.start ≡ length units.now) × (t.end ≡ length units.now)) }
{
    let (line_before, left) = after_gap(units, at);
    let start = units.len() - left.len();
    match longest_token(goal, starts_line(at, line_before), left) {
        Some((kind, rest)) => Ok(Token {
            kind,
            start,
            end: units.len() - rest.len(),
            line_before,
        }),
        None => Err(LexRefusal { at: start }),
    }
}

/// The longest token at the goal behind white space, line ends and comments from `at` on, or the end
/// of the text; a refusal exactly where neither stands there. Takes no memory.
pub fn next_token(text: &Units, at: usize, goal: Goal) -> Result<Token, LexRefusal>
    requires { at ≤ length text.now }
    ensures next { Next text.now at goal result }
    ensures only { (other : Result Token LexRefusal) → Next text.now at goal other → other ≡ result }
    ensures advances { IfOk result (λ t. t.kind ≢ TokenKind.Finish → t.start < t.end) }
    ensures finish { IfOk result (λ t. t.kind ≡ TokenKind.Finish
        → (t.start ≡ length text.now) × (t.end ≡ length text.now)) }
{
    token_in(text.as_slice(), at, goal)
}
