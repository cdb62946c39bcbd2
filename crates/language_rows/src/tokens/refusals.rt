//! Texts at which no token stands, with the places of the refusals.

use js_lexer::{Goal, LexRefusal, next_token};
use js_units::{NoMemory, Units};
use std::alloc::Global;
use std::test::Fail;

/// The goal, the place from which on a token is looked for, the place of the refusal, and the text.
const REFUSALS: [(Goal, usize, usize, &str); 78] = [
    (Goal::Division, 0, 0, "@"),
    (Goal::Division, 0, 0, "#"),
    (Goal::Division, 0, 0, "\\u0041"),
    (Goal::Division, 0, 0, "\u{e9}"),
    (Goal::Division, 0, 0, "\u{0}"),
    (Goal::Division, 0, 0, "`"),
    (Goal::Division, 0, 0, "00"),
    (Goal::Division, 0, 0, "01"),
    (Goal::Division, 0, 0, "1a"),
    (Goal::Division, 0, 0, "1_"),
    (Goal::Division, 0, 0, "1$"),
    (Goal::Division, 0, 0, "1\\"),
    (Goal::Division, 0, 0, "1."),
    (Goal::Division, 0, 0, "1.5"),
    (Goal::Division, 0, 0, "0x"),
    (Goal::Division, 0, 0, "0xg"),
    (Goal::Division, 0, 0, "0x1g"),
    (Goal::Division, 0, 0, "0b1"),
    (Goal::Division, 0, 0, "1n"),
    (Goal::Division, 0, 0, "1e5"),
    (Goal::Division, 0, 0, "0x1."),
    (Goal::Division, 0, 0, "0x9007199254740993n"),
    (Goal::Division, 0, 0, "'"),
    (Goal::Division, 0, 0, "'a"),
    (Goal::Division, 0, 0, "'a\n'"),
    (Goal::Division, 0, 0, "'a\r'"),
    (Goal::Division, 0, 0, "'\\00'"),
    (Goal::Division, 0, 0, "'\\08'"),
    (Goal::Division, 0, 0, "'\\1'"),
    (Goal::Division, 0, 0, "'\\9'"),
    (Goal::Division, 0, 0, "'\\x4'"),
    (Goal::Division, 0, 0, "'\\xg0'"),
    (Goal::Division, 0, 0, "'\\u004'"),
    (Goal::Division, 0, 0, "'\\u{}'"),
    (Goal::Division, 0, 0, "'\\u{110000}'"),
    (Goal::Division, 0, 0, "'\\u{11000000000000000000}'"),
    (Goal::Division, 0, 0, "'\\u{41'"),
    (Goal::Division, 0, 0, "'\\u{g}'"),
    (Goal::Division, 0, 0, "'\\'"),
    (Goal::Division, 0, 0, "\"a'"),
    (Goal::Division, 0, 0, "..."),
    (Goal::Division, 0, 0, "**"),
    (Goal::Division, 0, 0, "**="),
    (Goal::Division, 0, 0, "&&="),
    (Goal::Division, 0, 0, "||="),
    (Goal::Division, 0, 0, "??="),
    (Goal::Division, 0, 0, "=="),
    (Goal::Division, 0, 0, "!="),
    (Goal::Division, 0, 0, "== ="),
    (Goal::Division, 0, 0, "?.a"),
    (Goal::Division, 0, 0, "?."),
    (Goal::Division, 0, 0, "?.["),
    (Goal::Division, 0, 0, "<!--"),
    (Goal::Division, 0, 0, "-->"),
    (Goal::Pattern, 0, 0, "/"),
    (Goal::Pattern, 0, 0, "/a"),
    (Goal::Pattern, 0, 0, "/a\n/"),
    (Goal::Pattern, 0, 0, "/[/"),
    (Goal::Pattern, 0, 0, "/\\\n/"),
    (Goal::Pattern, 0, 0, "/*"),
    (Goal::Pattern, 0, 0, "/="),
    (Goal::Pattern, 0, 0, "/a\u{2028}/"),
    (Goal::Pattern, 0, 0, "/a\\/"),
    (Goal::Pattern, 0, 0, "/\r/"),
    (Goal::Division, 0, 2, "  -->"),
    (Goal::Division, 0, 5, "/*\n*/-->"),
    (Goal::Division, 0, 5, "/* */-->"),
    (Goal::Division, 0, 1, " @"),
    (Goal::Division, 0, 4, "//x\n@"),
    (Goal::Division, 0, 4, "#!x\n#"),
    (Goal::Division, 0, 1, " #!x"),
    (Goal::Division, 0, 6, "/* */ 1a"),
    (Goal::Division, 0, 1, "\u{feff}@"),
    (Goal::Division, 1, 2, "a\n-->"),
    (Goal::Division, 1, 1, "1\u{e9}"),
    (Goal::Division, 1, 2, "a ==b"),
    (Goal::Division, 1, 1, "a#!b"),
    (Goal::Division, 1, 6, "a/*\n*/-->"),
];

/// The first row that is refused elsewhere or not at all.
fn wrong_row(alloc: Global) -> Result<Option<usize>, NoMemory> {
    for (row, (goal, from, at, text)) in REFUSALS.iter().enumerate() {
        let units = Units::from_text(alloc, text)?;
        let from = (*from).min(units.len());
        if next_token(&units, from, *goal) != Err(LexRefusal { at: *at }) {
            return Ok(Some(row));
        }
    }
    Ok(None)
}

#[test]
fn refusals(rt: HostRuntime) -> Result<(), Fail> {
    assert_eq!(rt; wrong_row(rt.alloc())?, None);
    Ok(())
}
