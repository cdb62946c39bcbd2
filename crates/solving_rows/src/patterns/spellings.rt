//! Bodies with their trees.

use super::parsed;
use super::printing::print;
use js_units::NoMemory;
use re_ast::{Flags, Pattern};
use std::alloc::Global;
use std::test::Fail;

/// The body, the number of its groups, and its tree.
const SPELLINGS: [(&str, u32, &str); 105] = [
    ("", 0, "_"),
    ("a", 0, "'a"),
    ("ab", 0, "<'a 'b>"),
    ("a|b", 0, "|'a 'b|"),
    ("a|", 0, "|'a _|"),
    ("|", 0, "|_ _|"),
    ("|a|bc", 0, "|_ 'a <'b 'c>|"),
    (".", 0, "."),
    ("^a$", 0, "<^ 'a $>"),
    ("\\b\\B", 0, "<\\b \\B>"),
    ("(a)", 1, "(1 'a)"),
    ("()", 1, "(1 _)"),
    ("(?:ab)c", 0, "<<'a 'b> 'c>"),
    ("(?:)", 0, "_"),
    ("(?:a|b)c", 0, "<|'a 'b| 'c>"),
    ("((a)(b))c", 3, "<(1 <(2 'a) (3 'b)>) 'c>"),
    ("(a)|(b)", 2, "|(1 'a) (2 'b)|"),
    ("(?=a)b", 0, "<(='a) 'b>"),
    ("(?!a|b)", 0, "(!|'a 'b|)"),
    ("(?=(a))\\1", 1, "<(=(1 'a)) \\1>"),
    ("a*", 0, "{0,- 'a 1:1}"),
    ("a+", 0, "{1,- 'a 1:1}"),
    ("a?", 0, "{0,1 'a 1:1}"),
    ("a*?", 0, "{0,-? 'a 1:1}"),
    ("a+?", 0, "{1,-? 'a 1:1}"),
    ("a??", 0, "{0,1? 'a 1:1}"),
    ("a{2}", 0, "{2,2 'a 1:1}"),
    ("a{2,}", 0, "{2,- 'a 1:1}"),
    ("a{2,3}", 0, "{2,3 'a 1:1}"),
    ("a{2}?", 0, "{2,2? 'a 1:1}"),
    ("a{0,0}", 0, "{0,0 'a 1:1}"),
    ("a{65535}", 0, "{65535,65535 'a 1:1}"),
    ("a{002,0003}", 0, "{2,3 'a 1:1}"),
    ("ab*", 0, "<'a {0,- 'b 1:1}>"),
    ("(a)*", 1, "{0,- (1 'a) 1:2}"),
    ("(a)(b)+?", 2, "<(1 'a) {1,-? (2 'b) 2:3}>"),
    ("(?:(a)|(b))*", 2, "{0,- |(1 'a) (2 'b)| 1:3}"),
    (
        "(x)(?:y(z)){2}w*",
        2,
        "<(1 'x) {2,2 <'y (2 'z)> 2:3} {0,- 'w 3:3}>",
    ),
    ("a{2", 0, "<'a '{ '2>"),
    ("a{2,", 0, "<'a '{ '2 ',>"),
    ("a{2,3", 0, "<'a '{ '2 ', '3>"),
    ("a{,3}", 0, "<'a '{ ', '3 '}>"),
    ("a{}", 0, "<'a '{ '}>"),
    ("a{b}", 0, "<'a '{ 'b '}>"),
    ("{", 0, "'{"),
    ("{2", 0, "<'{ '2>"),
    ("}", 0, "'}"),
    ("]", 0, "']"),
    ("a]*", 0, "<'a {0,- '] 1:1}>"),
    ("{*", 0, "{0,- '{ 1:1}"),
    ("a{2 }", 0, "<'a '{ '2 #32 '}>"),
    ("a{{2}", 0, "<'a {2,2 '{ 1:1}>"),
    ("\\d", 0, "[48-57]"),
    ("\\D", 0, "[0-47 58-65535]"),
    ("\\w", 0, "[48-57 65-90 95-95 97-122]"),
    ("\\W", 0, "[0-47 58-64 91-94 96-96 123-65535]"),
    (
        "\\s",
        0,
        "[9-13 32-32 160-160 5760-5760 8192-8202 8232-8233 8239-8239 8287-8287 12288-12288 65279-65279]",
    ),
    (
        "\\S",
        0,
        "[0-8 14-31 33-159 161-5759 5761-8191 8203-8231 8234-8238 8240-8286 8288-12287 12289-65278 65280-65535]",
    ),
    ("\\d+?", 0, "{1,-? [48-57] 1:1}"),
    ("\\f\\n\\r\\t\\v", 0, "<#12 #10 #13 #9 #11>"),
    ("\\0", 0, "#0"),
    ("\\0a", 0, "<#0 'a>"),
    ("\\x41", 0, "'A"),
    ("\\xfF", 0, "#255"),
    ("\\u0041\\uFFFF", 0, "<'A #65535>"),
    ("\\.\\*\\\\\\/\\-", 0, "<'. '* '\\ '/ '->"),
    ("\\{2}", 0, "<'{ '2 '}>"),
    ("\\(\\)\\[\\]", 0, "<'( ') '[ ']>"),
    ("(a)\\1", 1, "<(1 'a) \\1>"),
    ("\\1(a)", 1, "<\\1 (1 'a)>"),
    ("(a\\1)", 1, "(1 <'a \\1>)"),
    ("(a)\\1*", 1, "<(1 'a) {0,- \\1 2:2}>"),
    (
        "()()()()()()()()()\\9",
        9,
        "<(1 _) (2 _) (3 _) (4 _) (5 _) (6 _) (7 _) (8 _) (9 _) \\9>",
    ),
    ("[]", 0, "[]"),
    ("[^]", 0, "[^]"),
    ("[a]", 0, "[97-97]"),
    ("[^a]", 0, "[^97-97]"),
    ("[a-c]", 0, "[97-99]"),
    ("[a-a]", 0, "[97-97]"),
    ("[ca]", 0, "[99-99 97-97]"),
    ("[a-cx-z_]", 0, "[97-99 120-122 95-95]"),
    ("[-a]", 0, "[45-45 97-97]"),
    ("[a-]", 0, "[97-97 45-45]"),
    ("[-]", 0, "[45-45]"),
    ("[a-c-e]", 0, "[97-99 45-45 101-101]"),
    ("[--a]", 0, "[45-97]"),
    ("[\\w-.]", 0, "[48-57 65-90 95-95 97-122 45-45 46-46]"),
    ("[.-\\d]", 0, "[46-46 45-45 48-57]"),
    ("[\\d-\\w]", 0, "[48-57 45-45 48-57 65-90 95-95 97-122]"),
    ("[\\d-a-z]", 0, "[48-57 45-45 97-97 45-45 122-122]"),
    ("[\\d-]", 0, "[48-57 45-45]"),
    ("[\\d]", 0, "[48-57]"),
    (
        "[^\\s\\d]",
        0,
        "[^9-13 32-32 160-160 5760-5760 8192-8202 8232-8233 8239-8239 8287-8287 12288-12288 65279-65279 48-57]",
    ),
    ("[\\b]", 0, "[8-8]"),
    ("[\\]]", 0, "[93-93]"),
    ("[[]", 0, "[91-91]"),
    ("[a^]", 0, "[97-97 94-94]"),
    ("[\\^a]", 0, "[94-94 97-97]"),
    ("[(|)*]", 0, "[40-40 124-124 41-41 42-42]"),
    ("[\\0-\\x7f]", 0, "[0-127]"),
    ("[\\u0000-\\uffff]", 0, "[0-65535]"),
    ("[\\t-\\r]", 0, "[9-13]"),
    ("[a-z]{1,3}?", 0, "{1,3? [97-122] 1:1}"),
    ("a-b", 0, "<'a '- 'b>"),
    ("/", 0, "'/"),
];

/// Flags, and what they say: global, ignore case, multiline and sticky.
const FLAGS: [(&str, bool, bool, bool, bool); 6] = [
    ("", false, false, false, false),
    ("g", true, false, false, false),
    ("i", false, true, false, false),
    ("m", false, false, true, false),
    ("y", false, false, false, true),
    ("ygmi", true, true, true, true),
];

fn is_printed(alloc: Global, pattern: &Pattern, groups: u32, tree: &str) -> Result<bool, NoMemory> {
    let mut printed = String::new(alloc);
    print(alloc, &mut printed, &pattern.node)?;
    Ok(printed.as_str() == tree && pattern.groups == groups)
}

fn is_spelt(alloc: Global, text: &str, groups: u32, tree: &str) -> Result<bool, NoMemory> {
    match parsed(alloc, text, "")? {
        Some(pattern) => {
            let found = is_printed(alloc, &pattern, groups, tree);
            drop(pattern);
            found
        }
        None => Ok(false),
    }
}

/// The first body with another tree.
fn wrong_body(alloc: Global) -> Result<Option<usize>, NoMemory> {
    for (row, (text, groups, tree)) in SPELLINGS.iter().enumerate() {
        if !is_spelt(alloc, text, *groups, tree)? {
            return Ok(Some(row));
        }
    }
    Ok(None)
}

fn copied_flags(alloc: Global, pattern: &Pattern) -> Result<Flags, NoMemory> {
    let copied = pattern.copy(alloc)?;
    let flags = copied.flags;
    drop(copied);
    Ok(flags)
}

/// The flags of a copy of a pattern with these letters.
fn flags_of(alloc: Global, letters: &str) -> Result<Option<Flags>, NoMemory> {
    match parsed(alloc, "a", letters)? {
        Some(pattern) => {
            let flags = copied_flags(alloc, &pattern);
            drop(pattern);
            Ok(Some(flags?))
        }
        None => Ok(None),
    }
}

/// The first letters with other flags.
fn wrong_flags(alloc: Global) -> Result<Option<usize>, NoMemory> {
    for (row, (letters, global, ignore_case, multiline, sticky)) in FLAGS.iter().enumerate() {
        let wanted = Flags {
            global: *global,
            ignore_case: *ignore_case,
            multiline: *multiline,
            sticky: *sticky,
        };
        if flags_of(alloc, letters)? != Some(wanted) {
            return Ok(Some(row));
        }
    }
    Ok(None)
}

#[test]
fn spellings(rt: HostRuntime) -> Result<(), Fail> {
    for found in [wrong_body(rt.alloc())?, wrong_flags(rt.alloc())?] {
        assert_eq!(rt; found, None);
    }
    Ok(())
}
