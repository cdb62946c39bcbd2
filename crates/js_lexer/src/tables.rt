//! The tables of marks, each with one rule, and whether units stand in the table of reserved words.

ghost use Rattle.std.specs.Prelude.{◌≡◌, map, length};
ghost use Rattle.js_units.specs.Words.{reserved_words};
ghost use Rattle.js_lexer.specs.Tables.{is_among, marks, refused_marks};
ghost use Rattle.js_lexer.specs.Words.{begins_with, longest_of};

use js_units::{RESERVED_WORDS, equals_bytes};

const MARKS: [&str; 48] = [
    "{", "}", "(", ")", "[", "]", ".", ";", ",", "<", ">", "<=", ">=", "===", "!==", "+", "-", "*",
    "/", "%", "++", "--", "<<", ">>", ">>>", "&", "|", "^", "!", "~", "&&", "||", "??", "?", ":",
    "=", "+=", "-=", "*=", "/=", "%=", "<<=", ">>=", ">>>=", "&=", "|=", "^=", "=>",
];

/// Marks of the standard that this language leaves out, and the start of an HTML-like comment.
const REFUSED_MARKS: [&str; 8] = ["...", "**", "&&=", "||=", "??=", "==", "!=", "<!--"];

/// Whether the units begin with those of an entry.
pub fn begins_with(entry: &[u8], units: &[u16]) -> bool
    ensures { result ≡ begins_with entry.now units.now }
{
    let mut bytes = entry;
    let mut left = units;
    while let [byte, more @ ..] = bytes {
        let [unit, rest @ ..] = left else {
            return false;
        };
        if u16::from(*byte) != *unit {
            return false;
        }
        bytes = more;
        left = rest;
    }
    true
}

fn is_among(table: &[&str], units: &[u16]) -> bool
    ensures { result ≡ is_among (map (λ entry. entry.now) table.now) units.now }
{
    let mut entries = table;
    while let [entry, rest @ ..] = entries {
        if equals_bytes(entry.as_bytes(), units) {
            return true;
        }
        entries = rest;
    }
    false
}

/// The length of the longest entry with which the units begin, 0 for none.
fn longest_of(table: &[&str], units: &[u16]) -> usize
    ensures { result ≡ longest_of (map (λ entry. entry.now) table.now) units.now }
{
    let mut longest = 0;
    let mut entries = table;
    while let [entry, rest @ ..] = entries {
        if begins_with(entry.as_bytes(), units) && longest < entry.len() {
            longest = entry.len();
        }
        entries = rest;
    }
    longest
}

/// Whether the units are a reserved word.
#[tactic(auto, unfolding(js_units::specs::Words::reserved_words))]
pub fn is_reserved(units: &[u16]) -> bool
    ensures { result ≡ is_among reserved_words units.now }
{
    is_among(&RESERVED_WORDS, units)
}

/// The length of the longest mark at the front, 0 for none.
#[tactic(auto, unfolding(crate::specs::Tables::marks))]
pub fn longest_mark(units: &[u16]) -> usize
    ensures { result ≡ longest_of marks units.now }
{
    longest_of(&MARKS, units)
}

/// The length of the longest refused mark at the front, 0 for none.
#[tactic(auto, unfolding(crate::specs::Tables::refused_marks))]
pub fn longest_refused_mark(units: &[u16]) -> usize
    ensures { result ≡ longest_of refused_marks units.now }
{
    longest_of(&REFUSED_MARKS, units)
}
