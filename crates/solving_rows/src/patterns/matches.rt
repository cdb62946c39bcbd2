//! What patterns match. The wanted answers come from node v20.20.2 (V8 11.3.244.8); many of the
//! first table stand in the notes of ECMA-262, section 22.2.2, too.

use super::parsed;
use js_units::{NoMemory, Units};
use re_ast::Pattern;
use re_matcher::{Caps, exec};
use std::alloc::Global;
use std::test::Fail;

fn push_span(out: &mut String, from: usize, to: usize) -> Result<(), NoMemory> {
    out.push_str(from.to_string(*out.allocator())?.as_str())?;
    out.push('-')?;
    out.push_str(to.to_string(*out.allocator())?.as_str())?;
    Ok(())
}

/// The match and the groups, as `0-3 1-2 undefined`.
fn shown(alloc: Global, caps: &Caps) -> Result<String, NoMemory> {
    let mut out = String::new(alloc);
    push_span(&mut out, caps.start, caps.end)?;
    for span in caps.groups.as_slice() {
        out.push(' ')?;
        match span {
            None => out.push_str("undefined")?,
            Some((from, to)) => push_span(&mut out, *from, *to)?,
        }
    }
    Ok(out)
}

/// A pattern, its flags, a text, the place from which it is searched, and the answer.
type Row = (
    &'static str,
    &'static str,
    &'static str,
    usize,
    &'static str,
);

/// What the pattern matches.
fn matched(
    alloc: Global,
    pattern: &Pattern,
    text: &Units,
    from: usize,
) -> Result<String, NoMemory> {
    if text.len() < from {
        return Ok(String::from_str(alloc, "past the end")?);
    }
    match exec(alloc, pattern, text, from)? {
        None => Ok(String::from_str(alloc, "none")?),
        Some(caps) => shown(alloc, &caps),
    }
}

/// What a copy of it matches.
fn copy_matched(
    alloc: Global,
    pattern: &Pattern,
    text: &Units,
    from: usize,
) -> Result<String, NoMemory> {
    let copied = pattern.copy(alloc)?;
    let found = matched(alloc, &copied, text, from);
    drop(copied);
    found
}

fn answer(
    alloc: Global,
    pattern: &str,
    flags: &str,
    text: &Units,
    from: usize,
) -> Result<String, NoMemory> {
    match parsed(alloc, pattern, flags)? {
        Some(pattern) => {
            let found = copy_matched(alloc, &pattern, text, from);
            drop(pattern);
            found
        }
        None => Ok(String::from_str(alloc, "refused")?),
    }
}

/// The first row with another answer.
fn wrong_row(alloc: Global, rows: &[Row]) -> Result<Option<usize>, NoMemory> {
    for (row, (pattern, flags, text, from, wanted)) in rows.iter().enumerate() {
        let text = Units::from_text(alloc, text)?;
        if answer(alloc, pattern, flags, &text, *from)?.as_str() != *wanted {
            return Ok(Some(row));
        }
    }
    Ok(None)
}

const STANDARD: [Row; 11] = [
    ("(a*)*", "", "b", 0, "0-0 undefined"),
    ("(a*)b\\1+", "", "baaaac", 0, "0-1 0-0"),
    (
        "(z)((a+)?(b+)?(c))*",
        "",
        "zaacbbbcac",
        0,
        "0-10 0-1 8-10 8-9 undefined 9-10",
    ),
    (
        "((a)|(ab))((c)|(bc))",
        "",
        "abc",
        0,
        "0-3 0-1 0-1 undefined 1-3 undefined 1-3",
    ),
    ("(?=(a+))a*b\\1", "", "baaabac", 0, "3-6 3-4"),
    (
        "(.*?)a(?!(a+)b\\2c)\\2(.*)",
        "",
        "baaabaac",
        0,
        "0-8 0-2 undefined 3-8",
    ),
    ("a|ab", "", "abc", 0, "0-1"),
    ("(?=(a+))", "", "baaabac", 0, "1-1 1-4"),
    ("a[a-z]{2,4}", "", "abcdefghi", 0, "0-5"),
    ("a[a-z]{2,4}?", "", "abcdefghi", 0, "0-3"),
    ("(aa|aabaac|ba|b|c)*", "", "aabaac", 0, "0-4 2-4"),
];

const QUANTIFIERS: [Row; 24] = [
    ("a*", "", "aaab", 0, "0-3"),
    ("a*?", "", "aaab", 0, "0-0"),
    ("a+?b", "", "aaab", 0, "0-4"),
    ("a??b", "", "ab", 0, "0-2"),
    ("(a??)(a?)", "", "aa", 0, "0-1 0-0 0-1"),
    ("a{0}", "", "a", 0, "0-0"),
    ("(a){0}b", "", "ab", 0, "1-2 undefined"),
    ("a{2}", "", "aaa", 0, "0-2"),
    ("a{2,}", "", "baaaa", 0, "1-5"),
    ("a{2,3}?a", "", "aaaa", 0, "0-3"),
    ("(a?){3}", "", "aa", 0, "0-2 2-2"),
    ("(a*){2}", "", "b", 0, "0-0 0-0"),
    ("(a*){2,}", "", "aab", 0, "0-2 2-2"),
    ("(a|b){2}", "", "ab", 0, "0-2 1-2"),
    ("(?:a?){2,4}?b", "", "aab", 0, "0-3"),
    ("(?:a*?)*b", "", "aab", 0, "0-3"),
    ("(a*)+", "", "b", 0, "0-0 0-0"),
    ("(a|ab)(c|bcd)(d*)", "", "abcd", 0, "0-4 0-1 1-4 4-4"),
    ("(a+|b+)*c", "", "aabbaac", 0, "0-7 4-6"),
    ("(?:(a)|(b)|c)*", "", "abc", 0, "0-3 undefined undefined"),
    ("(?:(a)|b)*", "", "ab", 0, "0-2 undefined"),
    ("((a)|b){2}", "", "ab", 0, "0-2 1-2 undefined"),
    ("(?:(a)|(b)){1,2}?", "", "ab", 0, "0-1 0-1 undefined"),
    ("(?:a|a)*b", "", "aaaaaaaaaaaaaa", 0, "none"),
];

const ANCHORS: [Row; 16] = [
    ("^a", "", "ba", 0, "none"),
    ("^a", "m", "b\na", 0, "2-3"),
    ("a$", "", "a\nb", 0, "none"),
    ("a$", "m", "a\nb", 0, "0-1"),
    ("^", "m", "a\rb", 1, "2-2"),
    ("$", "m", "a\u{2028}b", 0, "1-1"),
    ("^b", "m", "a\u{2029}b", 0, "2-3"),
    (".*", "", "ab\ncd", 0, "0-2"),
    (".+", "", "\nab", 0, "1-3"),
    ("\\bb", "", "ab b", 0, "3-4"),
    ("\\Bb", "", "b ab", 0, "3-4"),
    ("a\\b", "", "ab a", 0, "3-4"),
    ("\\b", "", "", 0, "none"),
    ("\\B", "", "", 0, "0-0"),
    ("^$", "", "", 0, "0-0"),
    ("^$", "m", "a\n\nb", 0, "2-2"),
];

const LOOKAHEADS: [Row; 10] = [
    ("a(?=b)", "", "acab", 0, "2-3"),
    ("a(?!b)", "", "abac", 0, "2-3"),
    ("(?=(a|ab))\\1b", "", "ab", 0, "0-2 0-1"),
    ("(?=(a|ab))\\1$", "", "ab", 0, "none"),
    ("(?!(a))\\1b", "", "b", 0, "0-1 undefined"),
    ("(?=(a)|b)b", "", "b", 0, "0-1 undefined"),
    ("(?:(?=(a))a)*b", "", "aab", 0, "0-3 1-2"),
    ("(?=a*?(b))a", "", "aab", 0, "0-1 2-3"),
    ("(?!a)(?=b)b", "", "ab", 0, "1-2"),
    ("(?=(?!(a))(b))b", "", "ab", 0, "1-2 undefined 1-2"),
];

const BACKREFERENCES: [Row; 9] = [
    ("(a)\\1", "", "aba a aa", 0, "6-8 6-7"),
    ("\\1(a)", "", "aa", 0, "0-1 0-1"),
    ("(a\\1)", "", "aa", 0, "0-1 0-1"),
    ("(?:(a)|b)\\1", "", "b", 0, "0-1 undefined"),
    ("(?:(a)|(b)\\1)*", "", "aba", 0, "0-3 2-3 undefined"),
    ("(a*)b\\1", "", "aabaaa", 0, "0-5 0-2"),
    ("(ab)\\1", "i", "abAB", 0, "0-4 0-2"),
    ("(\\w+) \\1", "i", "Ab aB", 0, "0-5 0-2"),
    ("([a-c])\\1", "", "abccb", 0, "2-4 2-3"),
];

const CLASSES: [Row; 17] = [
    ("[^a]", "", "ab", 0, "1-2"),
    ("[]", "", "a", 0, "none"),
    ("[^]", "", "\n", 0, "0-1"),
    ("\\d+", "", "a123b", 0, "1-4"),
    ("\\D+", "", "1ab2", 0, "1-3"),
    ("\\w+", "", "-a_1-", 0, "1-4"),
    ("\\W", "", "a_Z9 ", 0, "4-5"),
    ("[a-c]+", "i", "xAbCd", 0, "1-4"),
    ("[^a-c]+", "i", "ABCdEF", 0, "3-6"),
    ("[Z-a]+", "i", "aAzZ_b", 0, "0-5"),
    ("[\\x41]", "i", "a", 0, "0-1"),
    ("k", "i", "K", 0, "0-1"),
    ("\\u00e9", "i", "e\u{e9}", 0, "1-2"),
    ("@", "i", "`@", 0, "1-2"),
    ("[`{]", "i", "@[`", 0, "2-3"),
    ("\\u017f", "i", "sS", 0, "none"),
    ("\\u212a", "i", "kK", 0, "none"),
];

const PLACES: [Row; 12] = [
    ("a", "", "aba", 1, "2-3"),
    ("a", "", "ab", 1, "none"),
    ("a", "y", "ba", 0, "none"),
    ("a", "y", "ba", 1, "1-2"),
    ("a*", "y", "baa", 0, "0-0"),
    ("", "", "abc", 3, "3-3"),
    ("", "y", "abc", 2, "2-2"),
    ("a|b", "y", "cb", 1, "1-2"),
    ("^b", "y", "ab", 1, "none"),
    ("^b", "my", "a\nb", 2, "2-3"),
    ("(a|b)*", "", "abba", 1, "1-4 3-4"),
    ("b", "g", "ab", 0, "1-2"),
];

/// Time and memory grow with the text and no faster.
fn long_answer(alloc: Global) -> Result<String, NoMemory> {
    let mut text = Units::new(alloc);
    for _ in 0..65536 {
        text.push(97)?;
    }
    answer(alloc, "(a|b)*", "", &text, 0)
}

#[test]
fn matches(rt: HostRuntime) -> Result<(), Fail> {
    for rows in [
        STANDARD.as_slice(),
        QUANTIFIERS.as_slice(),
        ANCHORS.as_slice(),
        LOOKAHEADS.as_slice(),
        BACKREFERENCES.as_slice(),
        CLASSES.as_slice(),
        PLACES.as_slice(),
    ] {
        assert_eq!(rt; wrong_row(rt.alloc(), rows)?, None, "of {}", rows.len());
    }
    Ok(())
}

#[test]
fn a_long_text(rt: HostRuntime) -> Result<(), Fail> {
    assert_eq!(rt; long_answer(rt.alloc())?.as_str(), "0-65536 65535-65536");
    Ok(())
}
