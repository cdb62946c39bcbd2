//! The other refusals, with their places.

use super::parsed;
use js_parser::ScriptRefusal;
use js_units::NoMemory;
use std::alloc::Global;
use std::test::Fail;

const OTHERS: [(ScriptRefusal, &str); 28] = [
    (ScriptRefusal::EarlyName { at: 11 }, "let a; let a;"),
    (ScriptRefusal::EarlyName { at: 7 }, "let a, a"),
    (ScriptRefusal::EarlyName { at: 13 }, "let a; const a = 1"),
    (ScriptRefusal::EarlyName { at: 20 }, "function f() {} let f"),
    (
        ScriptRefusal::EarlyName { at: 25 },
        "function f() {} function f() {}",
    ),
    (ScriptRefusal::EarlyName { at: 14 }, "function f(a, a) {}"),
    (
        ScriptRefusal::EarlyName { at: 20 },
        "function f(a) { let a }",
    ),
    (ScriptRefusal::EarlyName { at: 4 }, "(a, a) => 1"),
    (ScriptRefusal::EarlyName { at: 11 }, "a => { let a }"),
    (
        ScriptRefusal::EarlyName { at: 23 },
        "try {} catch (e) { let e }",
    ),
    (ScriptRefusal::EarlyName { at: 4 }, "let undefined"),
    (ScriptRefusal::EarlyName { at: 9 }, "function NaN() {}"),
    (ScriptRefusal::EarlyName { at: 6 }, "const Infinity = 1"),
    (ScriptRefusal::EarlyName { at: 13 }, "{ let a; let a }"),
    (ScriptRefusal::EarlyName { at: 12 }, "for (let a, a;;) ;"),
    (
        ScriptRefusal::EarlyName { at: 30 },
        "let b = function f() { let c, c }",
    ),
    (
        ScriptRefusal::EarlyName { at: 21 },
        "x(() => { let a; let a })",
    ),
    (
        ScriptRefusal::EarlyName { at: 20 },
        "let a; { let b; let b } let a",
    ),
    (ScriptRefusal::WideNumber { at: 0 }, "9007199254740992;"),
    (
        ScriptRefusal::WideNumber { at: 8 },
        "let a = 0x20000000000000",
    ),
    (ScriptRefusal::WideNumber { at: 0 }, "9007199254740992 a"),
    (ScriptRefusal::Syntax { at: 2 }, "a 9007199254740992"),
    (ScriptRefusal::Syntax { at: 2 }, "a b; let c; let c"),
    (
        ScriptRefusal::WideNumber { at: 14 },
        "let a; let a; 9007199254740992",
    ),
    (
        ScriptRefusal::WideNumber { at: 2 },
        "({9007199254740992 1})",
    ),
    (
        ScriptRefusal::WideNumber { at: 2 },
        "({9007199254740992: 1})",
    ),
    (ScriptRefusal::Syntax { at: 9 }, "'\u{e9}\u{e9}' \n+"),
    (ScriptRefusal::EarlyName { at: 14 }, "let a = '\u{e9}', a"),
];

fn refusal_of(alloc: Global, bytes: &[u8]) -> Option<ScriptRefusal> {
    match parsed(alloc, bytes) {
        Ok(_) => None,
        Err(refusal) => Some(refusal),
    }
}

/// The first row that is refused otherwise.
fn wrong_row(alloc: Global, table: &[(ScriptRefusal, &str)]) -> Option<usize> {
    for (row, (refusal, text)) in table.iter().enumerate() {
        if refusal_of(alloc, text.as_bytes()) != Some(*refusal) {
            return Some(row);
        }
    }
    None
}

/// A part, how often it stands, what stands behind, and the refusal.
const NESTED: [(&str, usize, &str, Option<ScriptRefusal>); 14] = [
    ("(", 300, "", Some(ScriptRefusal::TooDeep { at: 199 })),
    ("(", 200, "", Some(ScriptRefusal::TooDeep { at: 199 })),
    ("(", 201, "", Some(ScriptRefusal::TooDeep { at: 199 })),
    ("(", 199, "1", Some(ScriptRefusal::TooDeep { at: 199 })),
    ("(", 198, "1 2", Some(ScriptRefusal::Syntax { at: 200 })),
    ("[", 199, "]", Some(ScriptRefusal::Syntax { at: 200 })),
    ("[", 200, "", Some(ScriptRefusal::TooDeep { at: 199 })),
    ("-", 1, "1", None),
    ("- ", 198, "1", None),
    ("- ", 199, "1", Some(ScriptRefusal::TooDeep { at: 396 })),
    ("{", 200, ")", Some(ScriptRefusal::Syntax { at: 200 })),
    ("{", 201, "", Some(ScriptRefusal::TooDeep { at: 200 })),
    ("if(a)b;else ", 198, "b", None),
    (
        "if(a)b;else ",
        199,
        "b",
        Some(ScriptRefusal::TooDeep { at: 2381 }),
    ),
];

/// The part as often, and what stands behind.
fn repeated(alloc: Global, part: &str, count: usize, rest: &str) -> Result<Vec<u8>, NoMemory> {
    let mut text = Vec::new(alloc);
    for _ in 0..count {
        text.extend_from_slice(part.as_bytes())?;
    }
    text.extend_from_slice(rest.as_bytes())?;
    Ok(text)
}

fn wrong_nesting(
    alloc: Global,
    table: &[(&str, usize, &str, Option<ScriptRefusal>)],
) -> Result<Option<usize>, NoMemory> {
    for (row, (part, count, rest, refusal)) in table.iter().enumerate() {
        let text = repeated(alloc, part, *count, rest)?;
        if refusal_of(alloc, text.as_slice()) != *refusal {
            return Ok(Some(row));
        }
    }
    Ok(None)
}

/// About a mebibyte: 30,000 statements, and 30,000 names in one scope, the last of which stands twice.
fn long_script(alloc: Global) -> Result<Vec<u8>, NoMemory> {
    let mut text = Vec::new(alloc);
    for number in 100_000u32..130_000 {
        text.extend_from_slice(b"let name_")?;
        text.extend_from_slice(number.to_string(alloc)?.as_bytes())?;
        text.extend_from_slice(b" = f(1, [2]) + 30;\n")?;
    }
    text.extend_from_slice(b"let name_129999;")?;
    Ok(text)
}

#[test]
fn others(rt: HostRuntime) -> Result<(), Fail> {
    let alloc = rt.alloc();
    let wrong = [wrong_row(alloc, &OTHERS), wrong_nesting(alloc, &NESTED)?];
    assert_eq!(rt; wrong, [None, None]);
    let found = [
        refusal_of(alloc, b"a\xff"),
        refusal_of(alloc, long_script(alloc)?.as_slice()),
    ];
    let wanted = [
        Some(ScriptRefusal::Utf8 { at: 1 }),
        Some(ScriptRefusal::EarlyName { at: 1_020_004 }),
    ];
    assert!(rt; found == wanted);
    Ok(())
}
