//! Terms read back.

ghost use Rattle.std.specs.Prelude.{◌≡◌, ◌≤◌, ◌<◌, ◌^◌, ◌-◌, ◌+◌, length, take, IfOk, IfSome};
ghost use Rattle.std.specs.Option.{option_map};
ghost use Rattle.proof_text.specs.Counted.{seen};
ghost use Rattle.report_text.specs.Parts.{one_of};
ghost use Rattle.report_text.specs.Terms.{words_told, front_at, words_at, term_at};
ghost use Rattle.report_text.specs.Bodies.{terms_at};

use crate::parts::{Shape, parts};
use crate::words::one_of;
use js_units::NoMemory;
use proof_text::{after, number};
use sqlite_items::Items;
use std::alloc::Global;

/// The words of terms, and what stands behind each.
const TERMS: [(&str, Shape); 38] = [
    ("flag", Shape::Flag),
    ("int", Shape::Int),
    ("text", Shape::Text),
    ("in", Shape::Short),
    ("not", Shape::One),
    ("and", Shape::Two),
    ("or", Shape::Two),
    ("pick", Shape::Three),
    ("eq", Shape::Two),
    ("less", Shape::Two),
    ("add", Shape::Two),
    ("sub", Shape::Two),
    ("mul", Shape::Two),
    ("quot", Shape::Two),
    ("rem", Shape::Two),
    ("fits", Shape::One),
    ("safe", Shape::One),
    ("bits", Shape::Bits),
    ("len", Shape::One),
    ("unit", Shape::Two),
    ("find", Shape::Three),
    ("isnum", Shape::One),
    ("num", Shape::One),
    ("ascii", Shape::One),
    ("cat", Shape::Two),
    ("slice", Shape::Three),
    ("span", Shape::Three),
    ("dec", Shape::One),
    ("low", Shape::One),
    ("up", Shape::One),
    ("trim", Shape::One),
    ("chr", Shape::One),
    ("exec", Shape::Exec),
    ("matched", Shape::One),
    ("begin", Shape::One),
    ("finish", Shape::One),
    ("set", Shape::Nth),
    ("group", Shape::Nth),
];

#[tactic(auto, unfolding(crate::specs::Terms::words_told))]
fn word(bytes: &[u8]) -> Option<(Shape, &[u8])>
    ensures { option_map (λ x. (x.0, x.1.now)) result ≡ one_of words_told bytes.now }
{
    one_of(&TERMS, bytes)
}

/// `t` and the number behind so many.
fn front(earlier: u64, bytes: &[u8]) -> Option<&[u8]>
    requires { earlier + 1 < 2 ^ 64 }
    ensures { option_map (λ x. x.now) result ≡ front_at earlier bytes.now }
{
    let start = after("t ", bytes)?;
    match number(u64::MAX, start) {
        Some((number, rest)) => {
            if number == earlier + 1 {
                after(" ", rest)
            } else {
                None
            }
        }
        None => None,
    }
}

/// What is behind a term, behind so many earlier ones.
#[tactic(auto, unfolding(crate::specs::Terms::words_at))]
fn behind_term(alloc: Global, earlier: u64, bytes: &[u8]) -> Result<Option<&[u8]>, NoMemory>
    requires { earlier + 1 < 2 ^ 64 }
    ensures { IfOk result (λ r. option_map (λ x. x.now) r ≡ words_at earlier bytes.now) }
{
    let start = match front(earlier, bytes) {
        Some(start) => start,
        None => return Ok(None),
    };
    match word(start) {
        Some((shape, left)) => parts(alloc, earlier, shape, left),
        None => Ok(None),
    }
}

/// The bytes before the others, which are their end.
fn before(alloc: Global, bytes: &[u8], left: &[u8]) -> Result<Items<u8>, NoMemory>
    requires { length left.now ≤ length bytes.now }
    ensures { IfOk result (λ text. text ≡ take (length bytes.now - length left.now) bytes.now) }
{
    let text = Items::from_slice(alloc, &bytes[..bytes.len() - left.len()])?;
    Ok(text)
}

/// The text of a term, behind so many earlier ones, and the line's end.
#[tactic(auto, unfolding(crate::specs::Terms::term_at))]
fn term(alloc: Global, earlier: u64, bytes: &[u8]) -> Result<Option<(Items<u8>, &[u8])>, NoMemory>
    requires { earlier + 1 < 2 ^ 64 }
    ensures { IfOk result (λ r. option_map (λ x. (x.0, x.1.now)) r ≡ term_at earlier bytes.now) }
{
    let left = match behind_term(alloc, earlier, bytes)? {
        Some(left) => left,
        None => return Ok(None),
    };
    let rest = match after("\n", left) {
        Some(rest) => rest,
        None => return Ok(None),
    };
    let text = before(alloc, bytes, left)?;
    Ok(Some((text, rest)))
}

/// So many lines of terms, numbered from 1 on.
pub(crate) fn terms(
    alloc: Global,
    count: u64,
    bytes: &[u8],
) -> Result<Result<(Items<Items<u8>>, &[u8]), &[u8]>, NoMemory>
    ensures { IfOk result (λ r. seen r ≡ terms_at 0 count bytes.now) }
{
    let mut found = Items::new(alloc);
    let mut left = bytes;
    let mut done: u64 = 0;
    while done < count {
        match term(alloc, done, left)? {
            Some((next, rest)) => {
                found.push(next)?;
                left = rest;
                done += 1;
            }
            None => return Ok(Err(left)),
        }
    }
    Ok(Ok((found, left)))
}
