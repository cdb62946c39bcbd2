//! Texts of 1,048,576 units, which no lexer reads in time whose work grows with the square.

use js_lexer::{Goal, TokenKind, next_token};
use js_units::{NoMemory, Units};
use std::alloc::Global;
use std::test::Fail;

const LENGTH: usize = 1_048_576;

/// The first units, then the others so many times, then the last ones.
fn repeated(
    alloc: Global,
    first: &str,
    others: &str,
    turns: usize,
    last: &str,
) -> Result<Units, NoMemory> {
    let mut text = Units::from_text(alloc, first)?;
    for _ in 0..turns {
        for byte in others.as_bytes() {
            text.push(u16::from(*byte))?;
        }
    }
    for byte in last.as_bytes() {
        text.push(u16::from(*byte))?;
    }
    Ok(text)
}

/// How many tokens there are up to the end, where each is one. A `/` begins a pattern behind a mark.
fn tokens(text: &Units) -> Option<usize> {
    let mut at = 0;
    let mut goal = Goal::Pattern;
    for count in 0..LENGTH {
        let token = next_token(text, at, goal).ok()?;
        goal = match token.kind {
            TokenKind::Finish => return Some(count),
            TokenKind::Mark => Goal::Pattern,
            _ => Goal::Division,
        };
        at = token.end;
    }
    None
}

/// The first part, another and how often that stands, the last part, and the number of tokens.
const LONG: [(&str, &str, usize, &str, usize); 8] = [
    ("'", "\\n", 524287, "'", 1),
    ("/*", "*", 1048572, "*/", 0),
    ("//", "/", 1048574, "", 0),
    ("", "a", 1048576, "", 1),
    ("1", "0", 1048575, "", 1),
    ("/", "[", 1048573, "]/", 1),
    ("", ">>>=", 262144, "", 262144),
    (
        "",
        "a1 = 0x1F+'\\x41' /* c */ / /[/]b/g; while ",
        24966,
        "    ",
        224694,
    ),
];

/// The first text that isn't as long, or has another number of tokens.
fn wrong_row(alloc: Global) -> Result<Option<usize>, NoMemory> {
    for (row, (first, others, turns, last, count)) in LONG.iter().enumerate() {
        let text = repeated(alloc, first, others, *turns, last)?;
        if text.len() != LENGTH || tokens(&text) != Some(*count) {
            return Ok(Some(row));
        }
    }
    Ok(None)
}

#[test]
fn long_texts(rt: HostRuntime) -> Result<(), Fail> {
    assert_eq!(rt; wrong_row(rt.alloc())?, None);
    Ok(())
}
