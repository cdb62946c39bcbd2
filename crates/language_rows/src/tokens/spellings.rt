//! Spellings of tokens, with what ECMA-262, section 12, says of them.

use js_lexer::{Goal, Token, TokenKind, flags_of, next_token, number_of, text_of};
use js_units::{NoMemory, Units, decimal};
use std::alloc::Global;
use std::test::Fail;

/// The goal, the kind, the end, the text, and what the token stands for: a number in decimal, and a
/// pattern as its body, a slash and its flags.
const SPELLINGS: [(Goal, TokenKind, usize, &str, &str); 123] = [
    (Goal::Division, TokenKind::Name, 1, "a", "a"),
    (Goal::Division, TokenKind::Name, 1, "$", "$"),
    (Goal::Division, TokenKind::Name, 1, "_", "_"),
    (Goal::Division, TokenKind::Name, 2, "Z9", "Z9"),
    (Goal::Division, TokenKind::Name, 5, "a1_$b c", "a1_$b"),
    (Goal::Division, TokenKind::Name, 3, "iff", "iff"),
    (Goal::Division, TokenKind::Name, 2, "If", "If"),
    (Goal::Division, TokenKind::Name, 2, "of", "of"),
    (Goal::Division, TokenKind::Name, 9, "undefined", "undefined"),
    (Goal::Division, TokenKind::Name, 3, "get", "get"),
    (Goal::Division, TokenKind::Name, 4, "let1", "let1"),
    (Goal::Division, TokenKind::Name, 4, "newt", "newt"),
    (Goal::Division, TokenKind::Name, 1, "a.b", "a"),
    (Goal::Division, TokenKind::Name, 1, "x\u{e9}", "x"),
    (Goal::Division, TokenKind::Word, 2, "if", "if"),
    (Goal::Division, TokenKind::Word, 3, "let", "let"),
    (Goal::Division, TokenKind::Word, 9, "arguments", "arguments"),
    (Goal::Division, TokenKind::Word, 5, "await", "await"),
    (Goal::Division, TokenKind::Word, 4, "eval", "eval"),
    (
        Goal::Division,
        TokenKind::Word,
        10,
        "instanceof",
        "instanceof",
    ),
    (Goal::Division, TokenKind::Word, 5, "yield", "yield"),
    (Goal::Division, TokenKind::Word, 2, "in+", "in"),
    (Goal::Division, TokenKind::Word, 4, "null", "null"),
    (Goal::Division, TokenKind::Word, 6, "typeof x", "typeof"),
    (Goal::Division, TokenKind::Word, 4, "case\u{e9}", "case"),
    (Goal::Division, TokenKind::Number, 1, "0", "0"),
    (Goal::Division, TokenKind::Number, 1, "7", "7"),
    (Goal::Division, TokenKind::Number, 2, "10", "10"),
    (
        Goal::Division,
        TokenKind::Number,
        9,
        "123456789",
        "123456789",
    ),
    (
        Goal::Division,
        TokenKind::Number,
        16,
        "9007199254740991",
        "9007199254740991",
    ),
    (Goal::Division, TokenKind::Number, 3, "0x0", "0"),
    (Goal::Division, TokenKind::Number, 4, "0Xff", "255"),
    (Goal::Division, TokenKind::Number, 5, "0xAbC", "2748"),
    (
        Goal::Division,
        TokenKind::Number,
        16,
        "0x1fffffffffffff",
        "9007199254740991",
    ),
    (
        Goal::Division,
        TokenKind::Number,
        25,
        "0x00000000000000000000001",
        "1",
    ),
    (Goal::Division, TokenKind::Number, 1, "1\u{e9}", "1"),
    (Goal::Division, TokenKind::Number, 1, "5+", "5"),
    (Goal::Division, TokenKind::Number, 1, "5 .x", "5"),
    (Goal::Division, TokenKind::Number, 1, "1/2", "1"),
    (Goal::Division, TokenKind::Number, 1, "0\n8", "0"),
    (
        Goal::Division,
        TokenKind::WideNumber,
        16,
        "9007199254740992",
        "",
    ),
    (
        Goal::Division,
        TokenKind::WideNumber,
        16,
        "9007199254740993",
        "",
    ),
    (
        Goal::Division,
        TokenKind::WideNumber,
        23,
        "99999999999999999999999",
        "",
    ),
    (
        Goal::Division,
        TokenKind::WideNumber,
        16,
        "0x20000000000000",
        "",
    ),
    (Goal::Division, TokenKind::Text, 2, "''", ""),
    (Goal::Division, TokenKind::Text, 2, "\"\"", ""),
    (Goal::Division, TokenKind::Text, 3, "'a'", "a"),
    (Goal::Division, TokenKind::Text, 3, "'\"'", "\""),
    (Goal::Division, TokenKind::Text, 3, "\"'\"", "'"),
    (
        Goal::Division,
        TokenKind::Text,
        14,
        "'\\n\\t\\r\\b\\f\\v'",
        "\n\t\r\u{8}\u{c}\u{b}",
    ),
    (Goal::Division, TokenKind::Text, 4, "'\\0'", "\u{0}"),
    (Goal::Division, TokenKind::Text, 5, "'\\0a'", "\u{0}a"),
    (Goal::Division, TokenKind::Text, 6, "'\\x41'", "A"),
    (Goal::Division, TokenKind::Text, 6, "'\\xfF'", "\u{ff}"),
    (Goal::Division, TokenKind::Text, 8, "'\\u0041'", "A"),
    (Goal::Division, TokenKind::Text, 8, "'\\uFFFF'", "\u{ffff}"),
    (Goal::Division, TokenKind::Text, 8, "'\\u{41}'", "A"),
    (Goal::Division, TokenKind::Text, 7, "'\\u{0}'", "\u{0}"),
    (
        Goal::Division,
        TokenKind::Text,
        12,
        "'\\u{10FFFF}'",
        "\u{10ffff}",
    ),
    (
        Goal::Division,
        TokenKind::Text,
        11,
        "'\\u{1F600}'",
        "\u{1f600}",
    ),
    (Goal::Division, TokenKind::Text, 14, "'\\u{00000041}'", "A"),
    (
        Goal::Division,
        TokenKind::Text,
        10,
        "'\\u{FFFF}'",
        "\u{ffff}",
    ),
    (
        Goal::Division,
        TokenKind::Text,
        11,
        "'\\u{10000}'",
        "\u{10000}",
    ),
    (Goal::Division, TokenKind::Text, 8, "'\\a\\-\\$'", "a-$"),
    (Goal::Division, TokenKind::Text, 8, "'\\\\\\'\\\"'", "\\'\""),
    (Goal::Division, TokenKind::Text, 6, "'a\\\nb'", "ab"),
    (Goal::Division, TokenKind::Text, 7, "'a\\\r\nb'", "ab"),
    (Goal::Division, TokenKind::Text, 6, "'a\\\rb'", "ab"),
    (Goal::Division, TokenKind::Text, 6, "'a\\\u{2028}b'", "ab"),
    (
        Goal::Division,
        TokenKind::Text,
        5,
        "'a\u{2028}b'",
        "a\u{2028}b",
    ),
    (
        Goal::Division,
        TokenKind::Text,
        5,
        "'\u{e9}\u{1f600}'",
        "\u{e9}\u{1f600}",
    ),
    (Goal::Division, TokenKind::Text, 3, "'a' + b", "a"),
    (Goal::Division, TokenKind::Text, 4, "'//'", "//"),
    (Goal::Division, TokenKind::Text, 4, "'/*'", "/*"),
    (Goal::Division, TokenKind::Text, 6, "'<!--'", "<!--"),
    (
        Goal::Division,
        TokenKind::Text,
        14,
        "'\\u{1f}\\u{2f}'",
        "\u{1f}/",
    ),
    (Goal::Pattern, TokenKind::Pattern, 3, "/a/", "a/"),
    (Goal::Pattern, TokenKind::Pattern, 5, "/a/gi", "a/gi"),
    (Goal::Pattern, TokenKind::Pattern, 5, "/[/]/", "[/]/"),
    (Goal::Pattern, TokenKind::Pattern, 4, "/\\//", "\\//"),
    (Goal::Pattern, TokenKind::Pattern, 3, "/=/", "=/"),
    (
        Goal::Pattern,
        TokenKind::Pattern,
        8,
        "/[\\]/]/y",
        "[\\]/]/y",
    ),
    (Goal::Pattern, TokenKind::Pattern, 4, "/a/g.b", "a/g"),
    (Goal::Pattern, TokenKind::Pattern, 5, "/a\\[/", "a\\[/"),
    (Goal::Pattern, TokenKind::Pattern, 5, "/[[]/", "[[]/"),
    (Goal::Pattern, TokenKind::Pattern, 3, "/]/", "]/"),
    (Goal::Pattern, TokenKind::Pattern, 4, "/a/1_", "a/1"),
    (Goal::Pattern, TokenKind::Pattern, 6, "/\\[a/i", "\\[a/i"),
    (Goal::Pattern, TokenKind::Pattern, 8, "/(?:x)*/", "(?:x)*/"),
    (
        Goal::Pattern,
        TokenKind::Pattern,
        3,
        "/\u{e9}/\u{e9}",
        "\u{e9}/",
    ),
    (Goal::Division, TokenKind::Mark, 1, "/", ""),
    (Goal::Division, TokenKind::Mark, 2, "/=", ""),
    (Goal::Division, TokenKind::Mark, 1, "/ /", ""),
    (Goal::Division, TokenKind::Mark, 4, ">>>=1", ""),
    (Goal::Division, TokenKind::Mark, 3, ">>>>", ""),
    (Goal::Division, TokenKind::Mark, 3, ">>>x", ""),
    (Goal::Division, TokenKind::Mark, 3, "====", ""),
    (Goal::Division, TokenKind::Mark, 3, "===", ""),
    (Goal::Division, TokenKind::Mark, 3, "!===", ""),
    (Goal::Division, TokenKind::Mark, 2, "+++", ""),
    (Goal::Division, TokenKind::Mark, 2, "---", ""),
    (Goal::Division, TokenKind::Mark, 2, "<<<", ""),
    (Goal::Division, TokenKind::Mark, 2, "=>>", ""),
    (Goal::Division, TokenKind::Mark, 1, "?.5", ""),
    (Goal::Division, TokenKind::Mark, 1, "?x", ""),
    (Goal::Division, TokenKind::Mark, 1, ".5", ""),
    (Goal::Division, TokenKind::Mark, 1, "..", ""),
    (Goal::Division, TokenKind::Mark, 1, "<!-", ""),
    (Goal::Division, TokenKind::Mark, 1, "<!a", ""),
    (Goal::Division, TokenKind::Mark, 2, "|||", ""),
    (Goal::Division, TokenKind::Mark, 2, "-- >", ""),
    (Goal::Division, TokenKind::Mark, 2, "&&&", ""),
    (Goal::Division, TokenKind::Mark, 1, "^^", ""),
    (Goal::Division, TokenKind::Mark, 1, "*/", ""),
    (Goal::Division, TokenKind::Mark, 2, "%==", ""),
    (Goal::Division, TokenKind::Mark, 2, "???", ""),
    (Goal::Division, TokenKind::Mark, 1, "/*x", ""),
    (Goal::Division, TokenKind::Mark, 1, "/*/", ""),
    (Goal::Pattern, TokenKind::Mark, 4, ">>>=", ""),
    (Goal::Pattern, TokenKind::Mark, 1, "+", ""),
    (Goal::Pattern, TokenKind::Mark, 1, "(", ""),
    (Goal::Pattern, TokenKind::Mark, 1, "*", ""),
    (Goal::Division, TokenKind::Finish, 0, "", ""),
];

/// What a token stands for, in the words of the table.
fn value(alloc: Global, text: &Units, goal: Goal) -> Result<Units, NoMemory> {
    let Ok(token) = next_token(text, 0, goal) else {
        return Ok(Units::new(alloc));
    };
    match token.kind {
        TokenKind::Number => Ok(decimal(alloc, number_of(text, &token) as i64)?),
        TokenKind::Name => Ok(text_of(alloc, text, &token)?),
        TokenKind::Word => Ok(text_of(alloc, text, &token)?),
        TokenKind::Text => Ok(text_of(alloc, text, &token)?),
        TokenKind::Pattern => {
            let mut value = text_of(alloc, text, &token)?;
            value.push(47)?;
            let flags = flags_of(alloc, text, &token)?;
            for unit in flags.as_slice() {
                value.push(*unit)?;
            }
            Ok(value)
        }
        _ => Ok(Units::new(alloc)),
    }
}

/// Whether this token comes next at a place.
fn is_next(text: &Units, at: usize, goal: Goal, wanted: Token) -> bool {
    at <= text.len() && next_token(text, at, goal) == Ok(wanted)
}

/// The first spelling that is another token, or stands for something else.
fn wrong_spelling(alloc: Global) -> Result<Option<usize>, NoMemory> {
    for (row, (goal, kind, end, spelling, stands)) in SPELLINGS.iter().enumerate() {
        let text = Units::from_text(alloc, spelling)?;
        let wanted = Token {
            kind: *kind,
            start: 0,
            end: *end,
            line_before: false,
        };
        let stands = Units::from_text(alloc, stands)?;
        if !is_next(&text, 0, *goal, wanted) || !value(alloc, &text, *goal)?.equals(&stands) {
            return Ok(Some(row));
        }
    }
    Ok(None)
}

const MARKS: [&str; 48] = [
    "{", "}", "(", ")", "[", "]", ".", ";", ",", "<", ">", "<=", ">=", "===", "!==", "+", "-", "*",
    "/", "%", "++", "--", "<<", ">>", ">>>", "&", "|", "^", "!", "~", "&&", "||", "??", "?", ":",
    "=", "+=", "-=", "*=", "/=", "%=", "<<=", ">>=", ">>>=", "&=", "|=", "^=", "=>",
];

/// The first mark that isn't one token.
fn wrong_mark(alloc: Global) -> Result<Option<usize>, NoMemory> {
    for (row, mark) in MARKS.iter().enumerate() {
        let text = Units::from_text(alloc, mark)?;
        let wanted = Token {
            kind: TokenKind::Mark,
            start: 0,
            end: mark.len(),
            line_before: false,
        };
        if !is_next(&text, 0, Goal::Division, wanted) {
            return Ok(Some(row));
        }
    }
    Ok(None)
}

/// The text, the place from which on a token is looked for, the kind, the start, the end, and
/// whether a line end stands before it.
const BEHIND: [(&str, usize, TokenKind, usize, usize, bool); 28] = [
    ("  a", 0, TokenKind::Name, 2, 3, false),
    (
        "\t\u{b}\u{c} \u{a0}\u{1680}\u{2000}\u{200a}\u{202f}\u{205f}\u{3000}\u{feff}a",
        0,
        TokenKind::Name,
        12,
        13,
        false,
    ),
    ("\na", 0, TokenKind::Name, 1, 2, true),
    ("\r\na", 0, TokenKind::Name, 2, 3, true),
    ("\u{2028}a", 0, TokenKind::Name, 1, 2, true),
    ("\u{2029} a", 0, TokenKind::Name, 2, 3, true),
    ("// x\na", 0, TokenKind::Name, 5, 6, true),
    ("// x\u{2028}a", 0, TokenKind::Name, 5, 6, true),
    ("/* x */a", 0, TokenKind::Name, 7, 8, false),
    ("/* \n */a", 0, TokenKind::Name, 7, 8, true),
    ("/**/a", 0, TokenKind::Name, 4, 5, false),
    ("/***/a", 0, TokenKind::Name, 5, 6, false),
    ("/* // */a", 0, TokenKind::Name, 8, 9, false),
    ("/* a */ /* \u{2029} */ b", 0, TokenKind::Name, 16, 17, true),
    ("#!x y\na", 0, TokenKind::Name, 6, 7, true),
    ("#!", 0, TokenKind::Finish, 2, 2, false),
    ("a b", 1, TokenKind::Name, 2, 3, false),
    ("a\nb", 1, TokenKind::Name, 2, 3, true),
    ("a // c\n\n b", 1, TokenKind::Name, 9, 10, true),
    ("a", 1, TokenKind::Finish, 1, 1, false),
    ("a \n", 1, TokenKind::Finish, 3, 3, true),
    ("a// c", 1, TokenKind::Finish, 5, 5, false),
    ("a-->b", 1, TokenKind::Mark, 1, 3, false),
    ("a /**/-->b", 1, TokenKind::Mark, 6, 8, false),
    ("a<b", 1, TokenKind::Mark, 1, 2, false),
    ("'x'y", 3, TokenKind::Name, 3, 4, false),
    ("ab", 1, TokenKind::Name, 1, 2, false),
    ("a /*", 1, TokenKind::Mark, 2, 3, false),
];

/// The first text behind which another token is found.
fn wrong_behind(alloc: Global) -> Result<Option<usize>, NoMemory> {
    for (row, (text, at, kind, start, end, line_before)) in BEHIND.iter().enumerate() {
        let text = Units::from_text(alloc, text)?;
        let wanted = Token {
            kind: *kind,
            start: *start,
            end: *end,
            line_before: *line_before,
        };
        if !is_next(&text, *at, Goal::Division, wanted) {
            return Ok(Some(row));
        }
    }
    Ok(None)
}

fn has_lone_surrogates(alloc: Global) -> Result<bool, NoMemory> {
    let text = Units::from_bytes(alloc, b"'\\uD83D\\u{DE00}\\ude00'")?;
    let found = value(alloc, &text, Goal::Division)?;
    Ok(found.as_slice() == [55357, 56832, 56832].as_slice())
}

#[test]
fn spellings(rt: HostRuntime) -> Result<(), Fail> {
    let alloc = rt.alloc();
    let found = [
        wrong_spelling(alloc)?,
        wrong_mark(alloc)?,
        wrong_behind(alloc)?,
    ];
    assert_eq!(rt; found, [None; 3]);
    assert!(rt; has_lone_surrogates(alloc)?);
    Ok(())
}
