//! Bounds, the order of inputs, and queries.

ghost use Rattle.std.specs.Prelude.{IfOk, All};
ghost use Rattle.path_core.specs.Accepted.{IsAccepted};

use path_core::{
    Bounds, Child, End, Event, Input, InputValue, Path, PickKind, Query, count, first_input,
    next_input, read_bounds,
};
use sqlite_items::Items;
use std::alloc::Global;
use std::test::Fail;

/// Files that are accepted.
const FILES: [&str; 10] = [
    "{\"version\":1,\"inputs\":[]}",
    "{\"version\":1,\"turns\":1,\"paths\":1,\"candidates\":1,\"steps\":1,\"width\":1,\"inputs\":[]}",
    "{\"version\":1,\"turns\":1000000,\"paths\":65536,\"candidates\":65536,\"steps\":9007199254740991,\"width\":1000000000,\"inputs\":[]}",
    "{\"inputs\":[{\"name\":\"n\",\"kind\":\"int\",\"low\":-9007199254740991,\"high\":9007199254740991}],\"version\":1}",
    "{\"version\":1,\"inputs\":[{\"name\":\"s\",\"kind\":\"text\",\"least\":64,\"most\":64,\"alphabet\":\"ab\"}]}",
    "{\"version\":1,\"inputs\":[{\"name\":\"aaaaaaaaaaaaaaaaaaaaaaaaaaaaaaaa\",\"kind\":\"int\",\"low\":0,\"high\":1}]}",
    "{\"version\":1,\"inputs\":[{\"name\":\"n0\",\"kind\":\"int\",\"low\":0,\"high\":1},{\"name\":\"n1\",\"kind\":\"int\",\"low\":0,\"high\":1},{\"name\":\"n2\",\"kind\":\"int\",\"low\":0,\"high\":1},{\"name\":\"n3\",\"kind\":\"int\",\"low\":0,\"high\":1},{\"name\":\"n4\",\"kind\":\"int\",\"low\":0,\"high\":1},{\"name\":\"n5\",\"kind\":\"int\",\"low\":0,\"high\":1},{\"name\":\"n6\",\"kind\":\"int\",\"low\":0,\"high\":1},{\"name\":\"n7\",\"kind\":\"int\",\"low\":0,\"high\":1},{\"name\":\"n8\",\"kind\":\"int\",\"low\":0,\"high\":1},{\"name\":\"n9\",\"kind\":\"int\",\"low\":0,\"high\":1},{\"name\":\"n10\",\"kind\":\"int\",\"low\":0,\"high\":1},{\"name\":\"n11\",\"kind\":\"int\",\"low\":0,\"high\":1},{\"name\":\"n12\",\"kind\":\"int\",\"low\":0,\"high\":1},{\"name\":\"n13\",\"kind\":\"int\",\"low\":0,\"high\":1},{\"name\":\"n14\",\"kind\":\"int\",\"low\":0,\"high\":1},{\"name\":\"n15\",\"kind\":\"int\",\"low\":0,\"high\":1}]}",
    "{\"version\":1,\"inputs\":[{\"name\":\"s\",\"kind\":\"text\",\"least\":0,\"most\":1,\"alphabet\":\"\\u0100\\u0101\\u0102\\u0103\\u0104\\u0105\\u0106\\u0107\\u0108\\u0109\\u010a\\u010b\\u010c\\u010d\\u010e\\u010f\\u0110\\u0111\\u0112\\u0113\\u0114\\u0115\\u0116\\u0117\\u0118\\u0119\\u011a\\u011b\\u011c\\u011d\\u011e\\u011f\\u0120\\u0121\\u0122\\u0123\\u0124\\u0125\\u0126\\u0127\\u0128\\u0129\\u012a\\u012b\\u012c\\u012d\\u012e\\u012f\\u0130\\u0131\\u0132\\u0133\\u0134\\u0135\\u0136\\u0137\\u0138\\u0139\\u013a\\u013b\\u013c\\u013d\\u013e\\u013f\\u0140\\u0141\\u0142\\u0143\\u0144\\u0145\\u0146\\u0147\\u0148\\u0149\\u014a\\u014b\\u014c\\u014d\\u014e\\u014f\\u0150\\u0151\\u0152\\u0153\\u0154\\u0155\\u0156\\u0157\\u0158\\u0159\\u015a\\u015b\\u015c\\u015d\\u015e\\u015f\\u0160\\u0161\\u0162\\u0163\\u0164\\u0165\\u0166\\u0167\\u0168\\u0169\\u016a\\u016b\\u016c\\u016d\\u016e\\u016f\\u0170\\u0171\\u0172\\u0173\\u0174\\u0175\\u0176\\u0177\\u0178\\u0179\\u017a\\u017b\\u017c\\u017d\\u017e\\u017f\\u0180\\u0181\\u0182\\u0183\\u0184\\u0185\\u0186\\u0187\\u0188\\u0189\\u018a\\u018b\\u018c\\u018d\\u018e\\u018f\\u0190\\u0191\\u0192\\u0193\\u0194\\u0195\\u0196\\u0197\\u0198\\u0199\\u019a\\u019b\\u019c\\u019d\\u019e\\u019f\\u01a0\\u01a1\\u01a2\\u01a3\\u01a4\\u01a5\\u01a6\\u01a7\\u01a8\\u01a9\\u01aa\\u01ab\\u01ac\\u01ad\\u01ae\\u01af\\u01b0\\u01b1\\u01b2\\u01b3\\u01b4\\u01b5\\u01b6\\u01b7\\u01b8\\u01b9\\u01ba\\u01bb\\u01bc\\u01bd\\u01be\\u01bf\\u01c0\\u01c1\\u01c2\\u01c3\\u01c4\\u01c5\\u01c6\\u01c7\\u01c8\\u01c9\\u01ca\\u01cb\\u01cc\\u01cd\\u01ce\\u01cf\\u01d0\\u01d1\\u01d2\\u01d3\\u01d4\\u01d5\\u01d6\\u01d7\\u01d8\\u01d9\\u01da\\u01db\\u01dc\\u01dd\\u01de\\u01df\\u01e0\\u01e1\\u01e2\\u01e3\\u01e4\\u01e5\\u01e6\\u01e7\\u01e8\\u01e9\\u01ea\\u01eb\\u01ec\\u01ed\\u01ee\\u01ef\\u01f0\\u01f1\\u01f2\\u01f3\\u01f4\\u01f5\\u01f6\\u01f7\\u01f8\\u01f9\\u01fa\\u01fb\\u01fc\\u01fd\\u01fe\\u01ff\"}]}",
    "{\"version\":2,\"version\":1,\"inputs\":[{\"name\":\"s\",\"kind\":\"text\",\"least\":0,\"most\":1,\"alphabet\":\"\\ud83d\\ude00\"},{\"name\":\"$_9\",\"kind\":\"int\",\"low\":0,\"high\":1}]}",
    "{\"version\":1,\"turns\":0,\"turns\":7,\"inputs\":[{\"name\":\"s\",\"kind\":\"text\",\"least\":0,\"most\":0,\"alphabet\":\"z\"}]}",
];

/// The first file that is refused.
fn wrong_file(alloc: Global) -> Option<usize> {
    for (row, text) in FILES.iter().enumerate() {
        if read_bounds(alloc, text.as_bytes()).is_err() {
            return Some(row);
        }
    }
    None
}

#[test]
fn files(rt: HostRuntime) -> Result<(), Fail> {
    assert_eq!(rt; wrong_file(rt.alloc()), None);
    Ok(())
}

const TWO: &str =
    "{\"version\":1,\"inputs\":[{\"name\":\"a\",\"kind\":\"int\",\"low\":0,\"high\":1},{\"name\":\"b\",\"kind\":\"int\",\"low\":5,\"high\":6}]}";

fn two(alloc: Global) -> Result<Bounds, Fail>
    ensures { IfOk result (λ b. All IsAccepted b.inputs) }
{
    Ok(read_bounds(alloc, TWO.as_bytes())?)
}

fn value(input: &Input, at: usize) -> Option<i64> {
    match input.values.get(at) {
        Some(InputValue::Int(number)) => Some(*number),
        _ => None,
    }
}

fn is_input(input: &Input, first: i64, second: i64) -> bool {
    value(input, 0) == Some(first) && value(input, 1) == Some(second)
}

/// Whether the four inputs come in their order, and the last one stays.
fn are_in_order(alloc: Global) -> Result<bool, Fail> {
    let bounds = two(alloc)?;
    let mut input = first_input(alloc, &bounds)?;
    let mut holds = count(&bounds) == 4 && is_input(&input, 0, 5);
    holds = next_input(alloc, &bounds, &mut input)? && holds && is_input(&input, 0, 6);
    holds = next_input(alloc, &bounds, &mut input)? && holds && is_input(&input, 1, 5);
    holds = next_input(alloc, &bounds, &mut input)? && holds && is_input(&input, 1, 6);
    holds = !next_input(alloc, &bounds, &mut input)? && holds && is_input(&input, 1, 6);
    Ok(holds)
}

const TEXTS: &str =
    "{\"version\":1,\"inputs\":[{\"name\":\"s\",\"kind\":\"text\",\"least\":0,\"most\":1,\"alphabet\":\"xy\"},{\"name\":\"n\",\"kind\":\"int\",\"low\":0,\"high\":1}]}";

fn texts(alloc: Global) -> Result<Bounds, Fail>
    ensures { IfOk result (λ b. All IsAccepted b.inputs) }
{
    Ok(read_bounds(alloc, TEXTS.as_bytes())?)
}

fn is_pair(input: &Input, text: &[u8], number: i64) -> bool {
    match input.values.get(0) {
        Some(InputValue::Text(units)) => {
            units.equals_bytes(text) && value(input, 1) == Some(number)
        }
        _ => false,
    }
}

/// Whether the six inputs of a text and a number come in their order, and the last one stays.
fn are_texts_in_order(alloc: Global) -> Result<bool, Fail> {
    let bounds = texts(alloc)?;
    let mut input = first_input(alloc, &bounds)?;
    let mut holds = count(&bounds) == 6 && is_pair(&input, b"", 0);
    holds = next_input(alloc, &bounds, &mut input)? && holds && is_pair(&input, b"", 1);
    holds = next_input(alloc, &bounds, &mut input)? && holds && is_pair(&input, b"x", 0);
    holds = next_input(alloc, &bounds, &mut input)? && holds && is_pair(&input, b"x", 1);
    holds = next_input(alloc, &bounds, &mut input)? && holds && is_pair(&input, b"y", 0);
    holds = next_input(alloc, &bounds, &mut input)? && holds && is_pair(&input, b"y", 1);
    holds = !next_input(alloc, &bounds, &mut input)? && holds && is_pair(&input, b"y", 1);
    Ok(holds)
}

/// Declares 16 inputs of the widest range.
fn wide(alloc: Global) -> Result<Bounds, Fail>
    ensures { IfOk result (λ b. All IsAccepted b.inputs) }
{
    let mut text = Vec::new(alloc);
    text.extend_from_slice(b"{\"version\":1,\"inputs\":[")?;
    for letter in 0..16u8 {
        if letter > 0 {
            text.push(b',')?;
        }
        text.extend_from_slice(b"{\"name\":\"")?;
        text.push(b'a' + letter)?;
        text.extend_from_slice(
            b"\",\"kind\":\"int\",\"low\":-9007199254740991,\"high\":9007199254740991}",
        )?;
    }
    text.extend_from_slice(b"]}")?;
    Ok(read_bounds(alloc, text.as_slice())?)
}

#[test]
fn inputs(rt: HostRuntime) -> Result<(), Fail> {
    let alloc = rt.alloc();
    let found = (
        are_in_order(alloc)?,
        are_texts_in_order(alloc)?,
        count(&wide(alloc)?),
    );
    assert_eq!(rt; found, (true, true, u128::MAX));
    Ok(())
}

fn branch(site: u32, out: u32) -> Event {
    Event::Pick {
        site,
        kind: PickKind::Branch,
        out,
        ways: 2,
    }
}

/// The path of one event, and a query behind so many events of it, with one child.
fn asked(alloc: Global, behind: u32, child: Child) -> Result<bool, Fail> {
    let mut events = Items::new(alloc);
    events.push(branch(1, 0))?;
    events.push(branch(2, 1))?;
    let path = Path {
        events,
        end: End::Done,
    };
    let mut prefix = Items::new(alloc);
    for site in 0..behind {
        prefix.push(branch(site.wrapping_add(1), site))?;
    }
    let mut children = Items::new(alloc);
    children.push(child)?;
    Ok(Query { prefix, children }.takes(&path))
}

#[test]
fn queries(rt: HostRuntime) -> Result<(), Fail> {
    let alloc = rt.alloc();
    let found = [
        asked(alloc, 1, Child::Event(branch(2, 1)))?,
        asked(alloc, 1, Child::Event(branch(2, 0)))?,
        asked(alloc, 2, Child::Event(branch(2, 1)))?,
        asked(alloc, 2, Child::End(End::Done))?,
        asked(alloc, 3, Child::End(End::Done))?,
    ];
    assert_eq!(rt; found, [false, true, true, false, false]);
    Ok(())
}
