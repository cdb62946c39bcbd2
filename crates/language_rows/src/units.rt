//! Strings: decoding, order, sizes, quoting and search.

use js_units::{
    NoMemory, Units, Utf8Refusal, compare, decimal, escape, from_utf8, index_of, utf8_len,
};
use std::alloc::Global;
use std::cmp::Ordering;
use std::test::Fail;

/// Bytes that aren't UTF-8, with the length of their longest front that is.
const REFUSED: [(&[u8], usize); 5] = [
    (&[0x61, 0xff], 1),
    (&[0x61, 0xc3], 1),
    (&[0xc3, 0xa9, 0xed, 0xa0, 0x80], 2),
    (&[0xf0, 0x9f, 0x98], 0),
    (&[0x61, 0xc0, 0x80], 1),
];

/// The first of them that is read, or refused elsewhere.
fn wrong_bytes(alloc: Global) -> Option<usize> {
    for (row, (bytes, at)) in REFUSED.iter().enumerate() {
        match from_utf8(alloc, bytes) {
            Err(Utf8Refusal::Bad { at: found }) if found == *at => {}
            _ => return Some(row),
        }
    }
    None
}

/// `é` and what lies on each side of a surrogate pair, from UTF-8 and from a text, pushed and copied.
fn has_units(alloc: Global) -> Result<bool, NoMemory> {
    let mut text = Units::from_text(alloc, "a\u{e9}\u{1f600}")?;
    text.push(97)?;
    let units = [97, 233, 55357, 56832, 97];
    let decoded = from_utf8(alloc, &[0x61, 0xc3, 0xa9, 0xf0, 0x9f, 0x98, 0x80, 0x61]);
    let is_decoded = match decoded {
        Ok(decoded) => decoded.equals(&text),
        Err(_) => false,
    };
    Ok(is_decoded && text.copy()?.as_slice() == units.as_slice())
}

fn has_texts(alloc: Global) -> Result<bool, NoMemory> {
    let mut text = Units::from_bytes(alloc, b"\"")?;
    text.push(233)?;
    let least = decimal(alloc, -9007199254740991)?;
    let zero = decimal(alloc, 0)?;
    Ok(
        escape(alloc, &text)?.as_slice() == b"\"\\\"\\u00e9\"".as_slice()
            && least.equals_bytes(b"-9007199254740991")
            && zero.equals_bytes(b"0"),
    )
}

fn has_order(alloc: Global) -> Result<bool, NoMemory> {
    let short = Units::from_bytes(alloc, b"ab")?;
    let long = Units::from_bytes(alloc, b"abc")?;
    Ok(
        compare(&short, &long) == Ordering::Less
            && compare(&long, &short) == Ordering::Greater
            && compare(&long, &long) == Ordering::Equal,
    )
}

/// Bytes in UTF-8 of the first units of `aé€` and a surrogate pair.
fn has_sizes(alloc: Global) -> Result<bool, NoMemory> {
    let text = Units::from_text(alloc, "a\u{e9}\u{20ac}\u{1f600}")?;
    for (upto, size) in [0, 1, 3, 6, 8, 10].iter().enumerate() {
        if text.len() < upto || utf8_len(&text, upto) != *size {
            return Ok(false);
        }
    }
    Ok(text.len() == 5)
}

/// The text, the part, the place from which it is searched, and the place where it stands.
const PLACES: [(&str, &str, usize, Option<usize>); 6] = [
    ("banana", "an", 0, Some(1)),
    ("banana", "an", 2, Some(3)),
    ("banana", "an", 4, None),
    ("banana", "", 6, Some(6)),
    ("banana", "", 7, None),
    ("an", "banana", 0, None),
];

fn wrong_place(alloc: Global) -> Result<Option<usize>, NoMemory> {
    for (row, (text, part, from, wanted)) in PLACES.iter().enumerate() {
        let text = Units::from_text(alloc, text)?;
        let part = Units::from_text(alloc, part)?;
        if index_of(&text, &part, *from) != *wanted {
            return Ok(Some(row));
        }
    }
    Ok(None)
}

#[test]
fn strings(rt: HostRuntime) -> Result<(), Fail> {
    let alloc = rt.alloc();
    let found = [
        has_units(alloc)?,
        has_texts(alloc)?,
        has_order(alloc)?,
        has_sizes(alloc)?,
    ];
    assert_eq!(rt; found, [true; 4]);
    assert_eq!(rt; [wrong_bytes(alloc), wrong_place(alloc)?], [None, None]);
    Ok(())
}
