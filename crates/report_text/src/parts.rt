//! The parts of terms read back.

ghost use Rattle.std.specs.Prelude.{◌≡◌, [], ◌∷◌, IfOk};
ghost use Rattle.std.specs.Option.{option_map};
ghost use Rattle.report_text.specs.Parts.{one_of};
ghost use Rattle.report_text.specs.declared.parts.Shape.TheVariants as shapes;
ghost use Rattle.report_text.specs.Terms.{earlier_term, parts_of, earlier_at, short_part_at, truth_at, int_part_at, text_part_at, bits_told, bits_at, parts_at};

use crate::wide::int;
use crate::words::{one_of, short};
use js_units::{NoMemory, unescape_front};
use proof_text::{after, number};
use std::alloc::Global;

/// What stands behind a word: parts, which are earlier terms, numbers, or one of its own.
#[derive(Clone, Copy)]
pub(crate) enum Shape {
    Flag,
    Int,
    Text,
    Short,
    One,
    Two,
    Three,
    Bits,
    Exec,
    Nth,
}

/// The operators on bits.
#[derive(Clone, Copy)]
enum BitsOp {
    And,
    Or,
    Xor,
    Shl,
    Shr,
    Ushr,
}

const BITS: [(&str, BitsOp); 6] = [
    ("and", BitsOp::And),
    ("or", BitsOp::Or),
    ("xor", BitsOp::Xor),
    ("shl", BitsOp::Shl),
    ("shr", BitsOp::Shr),
    ("ushr", BitsOp::Ushr),
];

/// `t` and the number of an earlier term.
fn earlier_part(earlier: u64, bytes: &[u8]) -> Option<&[u8]>
    ensures { option_map (λ x. x.now) result ≡ earlier_at earlier bytes.now }
{
    let start = after(" t", bytes)?;
    match number(u64::MAX, start) {
        Some((number, rest)) => {
            if 1 <= number && number <= earlier {
                Some(rest)
            } else {
                None
            }
        }
        None => None,
    }
}

fn two(earlier: u64, bytes: &[u8]) -> Option<&[u8]>
    ensures { option_map (λ x. x.now) result ≡ parts_at earlier (earlier_term ∷ earlier_term ∷ []) bytes.now }
{
    let left = earlier_part(earlier, bytes)?;
    let rest = earlier_part(earlier, left)?;
    Some(rest)
}

fn three(earlier: u64, bytes: &[u8]) -> Option<&[u8]>
    ensures { option_map (λ x. x.now) result ≡ parts_at earlier (earlier_term ∷ earlier_term ∷ earlier_term ∷ []) bytes.now }
{
    let left = earlier_part(earlier, bytes)?;
    let rest = two(earlier, left)?;
    Some(rest)
}

fn short_part(bytes: &[u8]) -> Option<&[u8]>
    ensures { option_map (λ x. x.now) result ≡ short_part_at bytes.now }
{
    let start = after(" ", bytes)?;
    let (_, rest) = short(start)?;
    Some(rest)
}

#[tactic(auto, unfolding(crate::specs::Terms::bit_at))]
fn truth_part(bytes: &[u8]) -> Option<&[u8]>
    ensures { option_map (λ x. x.now) result ≡ truth_at bytes.now }
{
    match after(" ", bytes) {
        Some([first, rest @ ..]) if *first == b'0' || *first == b'1' => Some(rest),
        _ => None,
    }
}

fn int_part(bytes: &[u8]) -> Option<&[u8]>
    ensures { option_map (λ x. x.now) result ≡ int_part_at bytes.now }
{
    let start = after(" ", bytes)?;
    let rest = int(start)?;
    Some(rest)
}

fn text_part(alloc: Global, bytes: &[u8]) -> Result<Option<&[u8]>, NoMemory>
    ensures { IfOk result (λ r. option_map (λ x. x.now) r ≡ text_part_at bytes.now) }
{
    let start = match after(" ", bytes) {
        Some(start) => start,
        None => return Ok(None),
    };
    match unescape_front(alloc, start)? {
        Some((_, rest)) => Ok(Some(rest)),
        None => Ok(None),
    }
}

#[tactic(auto, unfolding(crate::specs::Terms::bits_told))]
fn op(bytes: &[u8]) -> Option<(BitsOp, &[u8])>
    ensures { option_map (λ x. (x.0, x.1.now)) result ≡ one_of bits_told bytes.now }
{
    one_of(&BITS, bytes)
}

fn bits_part(bytes: &[u8]) -> Option<&[u8]>
    ensures { option_map (λ x. x.now) result ≡ bits_at bytes.now }
{
    let start = after(" ", bytes)?;
    let (_, rest) = op(start)?;
    Some(rest)
}

fn bits(earlier: u64, bytes: &[u8]) -> Option<&[u8]>
    ensures { option_map (λ x. x.now) result ≡ parts_at earlier (parts_of shapes.Bits) bytes.now }
{
    let left = bits_part(bytes)?;
    let rest = two(earlier, left)?;
    Some(rest)
}

fn exec(earlier: u64, bytes: &[u8]) -> Option<&[u8]>
    ensures { option_map (λ x. x.now) result ≡ parts_at earlier (parts_of shapes.Exec) bytes.now }
{
    let left = short_part(bytes)?;
    let rest = two(earlier, left)?;
    Some(rest)
}

fn nth(earlier: u64, bytes: &[u8]) -> Option<&[u8]>
    ensures { option_map (λ x. x.now) result ≡ parts_at earlier (parts_of shapes.Nth) bytes.now }
{
    let left = earlier_part(earlier, bytes)?;
    let rest = short_part(left)?;
    Some(rest)
}

/// What is behind the parts that stand behind such a word, where so many terms are earlier.
pub(crate) fn parts(
    alloc: Global,
    earlier: u64,
    shape: Shape,
    bytes: &[u8],
) -> Result<Option<&[u8]>, NoMemory>
    ensures { IfOk result (λ r. option_map (λ x. x.now) r ≡ parts_at earlier (parts_of shape) bytes.now) }
{
    match shape {
        Shape::Flag => Ok(truth_part(bytes)),
        Shape::Int => Ok(int_part(bytes)),
        Shape::Text => text_part(alloc, bytes),
        Shape::Short => Ok(short_part(bytes)),
        Shape::One => Ok(earlier_part(earlier, bytes)),
        Shape::Two => Ok(two(earlier, bytes)),
        Shape::Three => Ok(three(earlier, bytes)),
        Shape::Bits => Ok(bits(earlier, bytes)),
        Shape::Exec => Ok(exec(earlier, bytes)),
        Shape::Nth => Ok(nth(earlier, bytes)),
    }
}
