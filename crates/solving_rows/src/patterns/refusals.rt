//! Bodies and flags that are refused, with their places.

use js_units::{NoMemory, Units};
use re_parser::{PatternRefusal, parse_pattern};
use std::alloc::Global;
use std::test::Fail;

/// The body, and why it is refused at which place.
const REFUSALS: [(&str, PatternRefusal); 106] = [
    ("(", PatternRefusal::Syntax { at: 1 }),
    ("(a", PatternRefusal::Syntax { at: 2 }),
    ("(?:", PatternRefusal::Syntax { at: 3 }),
    ("(?=a", PatternRefusal::Syntax { at: 4 }),
    ("((a)", PatternRefusal::Syntax { at: 4 }),
    (")", PatternRefusal::Syntax { at: 0 }),
    ("a)", PatternRefusal::Syntax { at: 1 }),
    ("(a))", PatternRefusal::Syntax { at: 3 }),
    ("(?", PatternRefusal::Syntax { at: 2 }),
    ("(?a)", PatternRefusal::Syntax { at: 2 }),
    ("(?<a>b)", PatternRefusal::Syntax { at: 2 }),
    ("(?*)", PatternRefusal::Syntax { at: 2 }),
    ("((?", PatternRefusal::Syntax { at: 3 }),
    ("*", PatternRefusal::Syntax { at: 0 }),
    ("+", PatternRefusal::Syntax { at: 0 }),
    ("?", PatternRefusal::Syntax { at: 0 }),
    ("a**", PatternRefusal::Syntax { at: 2 }),
    ("a*??", PatternRefusal::Syntax { at: 3 }),
    ("a+*", PatternRefusal::Syntax { at: 2 }),
    ("a???", PatternRefusal::Syntax { at: 3 }),
    ("|*", PatternRefusal::Syntax { at: 1 }),
    ("(*a)", PatternRefusal::Syntax { at: 1 }),
    ("^*", PatternRefusal::Syntax { at: 1 }),
    ("$+", PatternRefusal::Syntax { at: 1 }),
    ("\\b?", PatternRefusal::Syntax { at: 2 }),
    ("\\B{1}", PatternRefusal::Syntax { at: 4 }),
    ("(?=a)*", PatternRefusal::Syntax { at: 5 }),
    ("(?!a)?", PatternRefusal::Syntax { at: 5 }),
    ("(?=a){2}", PatternRefusal::Syntax { at: 7 }),
    ("(?!a){2,}", PatternRefusal::Syntax { at: 8 }),
    ("{2}", PatternRefusal::Syntax { at: 2 }),
    ("{2,}", PatternRefusal::Syntax { at: 3 }),
    ("{2,3}", PatternRefusal::Syntax { at: 4 }),
    ("a|{0}", PatternRefusal::Syntax { at: 4 }),
    ("({1})", PatternRefusal::Syntax { at: 3 }),
    ("a*{2}", PatternRefusal::Syntax { at: 4 }),
    ("a{2}{3}", PatternRefusal::Syntax { at: 6 }),
    ("x{1}?{2}", PatternRefusal::Syntax { at: 7 }),
    ("a{2,1}", PatternRefusal::Syntax { at: 5 }),
    ("a{65536}", PatternRefusal::Syntax { at: 7 }),
    ("a{65536,}", PatternRefusal::Syntax { at: 8 }),
    ("a{0,65536}", PatternRefusal::Syntax { at: 9 }),
    ("a{99999999999999999999}", PatternRefusal::Syntax { at: 22 }),
    ("a{65537,65536}", PatternRefusal::Syntax { at: 13 }),
    ("[", PatternRefusal::Syntax { at: 1 }),
    ("[a", PatternRefusal::Syntax { at: 2 }),
    ("[^", PatternRefusal::Syntax { at: 2 }),
    ("[a-", PatternRefusal::Syntax { at: 3 }),
    ("[a-c", PatternRefusal::Syntax { at: 4 }),
    ("(a[)]", PatternRefusal::Syntax { at: 5 }),
    ("[z-a]", PatternRefusal::Syntax { at: 3 }),
    ("[b-\\x41]", PatternRefusal::Syntax { at: 5 }),
    ("[c-\\x62]", PatternRefusal::Syntax { at: 6 }),
    ("[b-\\u0041]", PatternRefusal::Syntax { at: 7 }),
    ("[\\u1234-\\u1233]", PatternRefusal::Syntax { at: 13 }),
    ("[\\u1234-\\u0fff]", PatternRefusal::Syntax { at: 10 }),
    ("[\\u0100-\\xff]", PatternRefusal::Syntax { at: 9 }),
    ("[b-\\n]", PatternRefusal::Syntax { at: 4 }),
    ("[z-\\-]", PatternRefusal::Syntax { at: 4 }),
    ("[a-\\0]", PatternRefusal::Syntax { at: 4 }),
    ("[a-\\b]", PatternRefusal::Syntax { at: 4 }),
    ("[b-a\\q]", PatternRefusal::Syntax { at: 3 }),
    ("\\q", PatternRefusal::BadEscape { at: 0 }),
    ("\\", PatternRefusal::BadEscape { at: 0 }),
    ("a\\", PatternRefusal::BadEscape { at: 1 }),
    ("(\\a)", PatternRefusal::BadEscape { at: 1 }),
    ("\\_", PatternRefusal::BadEscape { at: 0 }),
    ("\\é", PatternRefusal::BadEscape { at: 0 }),
    ("\\x4", PatternRefusal::BadEscape { at: 0 }),
    ("\\x4g", PatternRefusal::BadEscape { at: 0 }),
    ("\\u004", PatternRefusal::BadEscape { at: 0 }),
    ("\\u{41}", PatternRefusal::BadEscape { at: 0 }),
    ("\\u", PatternRefusal::BadEscape { at: 0 }),
    ("\\c", PatternRefusal::BadEscape { at: 0 }),
    ("\\cA", PatternRefusal::BadEscape { at: 0 }),
    ("\\00", PatternRefusal::BadEscape { at: 0 }),
    ("\\08", PatternRefusal::BadEscape { at: 0 }),
    ("\\k<a>", PatternRefusal::BadEscape { at: 0 }),
    ("\\p{L}", PatternRefusal::BadEscape { at: 0 }),
    ("a|\\z", PatternRefusal::BadEscape { at: 2 }),
    ("[\\q]", PatternRefusal::BadEscape { at: 1 }),
    ("[\\1]", PatternRefusal::BadEscape { at: 1 }),
    ("[\\B]", PatternRefusal::BadEscape { at: 1 }),
    ("[a\\c]", PatternRefusal::BadEscape { at: 2 }),
    ("[a-\\q]", PatternRefusal::BadEscape { at: 3 }),
    ("[\\d-\\q]", PatternRefusal::BadEscape { at: 4 }),
    ("[\\", PatternRefusal::BadEscape { at: 1 }),
    ("[a-\\x4]", PatternRefusal::BadEscape { at: 3 }),
    ("[\\u1000-\\x4g]", PatternRefusal::BadEscape { at: 8 }),
    (
        "()()()()()()()()()()",
        PatternRefusal::TooManyGroups { at: 18 },
    ),
    ("((((((((((", PatternRefusal::TooManyGroups { at: 9 }),
    (
        "()()()()()()()()()(?:(",
        PatternRefusal::TooManyGroups { at: 21 },
    ),
    (
        "()()()()()()()()()()\\q",
        PatternRefusal::TooManyGroups { at: 18 },
    ),
    ("\\1", PatternRefusal::BackrefRange { at: 0 }),
    ("\\2(a)", PatternRefusal::BackrefRange { at: 0 }),
    ("a\\1", PatternRefusal::BackrefRange { at: 1 }),
    ("(a)\\2", PatternRefusal::BackrefRange { at: 3 }),
    ("(a)\\1\\3\\2", PatternRefusal::BackrefRange { at: 5 }),
    ("(a)\\10", PatternRefusal::BackrefRange { at: 3 }),
    (
        "()()()()()()()()()\\10",
        PatternRefusal::BackrefRange { at: 18 },
    ),
    ("\\99999999999", PatternRefusal::BackrefRange { at: 0 }),
    ("(?:a)\\1*", PatternRefusal::BackrefRange { at: 5 }),
    ("\\1)", PatternRefusal::Syntax { at: 2 }),
    ("\\1\\q", PatternRefusal::BadEscape { at: 2 }),
    ("\\q)", PatternRefusal::BadEscape { at: 0 }),
    (")\\q", PatternRefusal::Syntax { at: 0 }),
];

/// Flags, and the place at which they are refused.
const FLAGS: [(&str, usize); 8] = [
    ("gg", 1),
    ("x", 0),
    ("gimyg", 4),
    ("ga", 1),
    ("G", 0),
    ("yy", 1),
    ("u", 0),
    ("gd", 1),
];

/// A text and how often it stands, another and how often that stands, the last, and the refusal.
type Long = (
    &'static str,
    u32,
    &'static str,
    u32,
    &'static str,
    Option<PatternRefusal>,
);

/// Bodies of many groups. A group that is too deep is refused before its mark. Time that grows faster than a long body
/// would pass the limit of a test.
const LONG: [Long; 7] = [
    ("(?:", 100, ")", 100, "a", None),
    (
        "(?:",
        100,
        ")",
        99,
        "",
        Some(PatternRefusal::Syntax { at: 399 }),
    ),
    (
        "(?:",
        100,
        "",
        0,
        "(?:",
        Some(PatternRefusal::Syntax { at: 300 }),
    ),
    (
        "()",
        9,
        "(?:",
        100,
        "(",
        Some(PatternRefusal::Syntax { at: 318 }),
    ),
    (
        "(?:",
        100,
        "",
        0,
        "(?*",
        Some(PatternRefusal::Syntax { at: 300 }),
    ),
    ("(?:a{2}|[b-d])", 71_429, "", 0, "", None),
    (
        "(?:a{2}|[b-d])",
        71_429,
        "a{",
        1,
        "11111111[",
        Some(PatternRefusal::Syntax { at: 1_000_017 }),
    ),
];

fn refusal(alloc: Global, body: &Units, flags: &Units) -> Option<PatternRefusal> {
    match parse_pattern(alloc, body, flags) {
        Ok(pattern) => {
            drop(pattern);
            None
        }
        Err(refusal) => Some(refusal),
    }
}

/// The first body that is refused otherwise.
fn wrong_body(alloc: Global, rows: &[(&str, PatternRefusal)]) -> Result<Option<usize>, NoMemory> {
    let flags = Units::new(alloc);
    for (row, (text, wanted)) in rows.iter().enumerate() {
        let body = Units::from_text(alloc, text)?;
        if refusal(alloc, &body, &flags) != Some(*wanted) {
            return Ok(Some(row));
        }
    }
    Ok(None)
}

/// The first flags that are refused otherwise, before this body.
fn wrong_flags(alloc: Global, body: &str) -> Result<Option<usize>, NoMemory> {
    let body = Units::from_text(alloc, body)?;
    for (row, (text, at)) in FLAGS.iter().enumerate() {
        let flags = Units::from_text(alloc, text)?;
        if refusal(alloc, &body, &flags) != Some(PatternRefusal::Flags { at: *at }) {
            return Ok(Some(row));
        }
    }
    Ok(None)
}

/// The text, so many times.
fn push_times(body: &mut Units, text: &str, times: u32) -> Result<(), NoMemory> {
    for _ in 0..times {
        for unit in text.as_bytes() {
            body.push(u16::from(*unit))?;
        }
    }
    Ok(())
}

/// The first long body that is refused otherwise.
fn wrong_long(alloc: Global) -> Result<Option<usize>, NoMemory> {
    let flags = Units::new(alloc);
    for (row, (first, times, second, more, end, wanted)) in LONG.iter().enumerate() {
        let mut body = Units::new(alloc);
        push_times(&mut body, first, *times)?;
        push_times(&mut body, second, *more)?;
        push_times(&mut body, end, 1)?;
        if refusal(alloc, &body, &flags) != *wanted {
            return Ok(Some(row));
        }
    }
    Ok(None)
}

#[test]
fn refusals(rt: HostRuntime) -> Result<(), Fail> {
    let alloc = rt.alloc();
    for found in [
        wrong_body(alloc, &REFUSALS)?,
        wrong_flags(alloc, "a")?,
        wrong_flags(alloc, "(")?,
        wrong_long(alloc)?,
    ] {
        assert_eq!(rt; found, None);
    }
    Ok(())
}
