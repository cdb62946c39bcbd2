//! Bounds files that are refused. Where one is wrong in several ways, the first in the order of refusals is told.

use super::is_answered;
use js_units::NoMemory;
use std::alloc::Global;
use std::test::Fail;
use std::thread::Threads;

/// A whole file, and why it is refused.
const FILES: [(&str, &str); 33] = [
    ("", "json"),
    ("[]", "json"),
    ("{\"version\":1,\"inputs\":[]", "json"),
    ("{\"version\":1,\"inputs\":[]}x", "json"),
    ("{}", "version"),
    ("{\"version\":2,\"inputs\":[]}", "version"),
    ("{\"version\":\"1\",\"inputs\":[]}", "version"),
    ("{\"version\":1.0,\"inputs\":[]}", "version"),
    ("{\"inputs\":{},\"turns\":0}", "version"),
    ("{\"version\":1}", "field \"inputs\""),
    ("{\"version\":1,\"inputs\":{}}", "field \"inputs\""),
    ("{\"version\":1,\"inputs\":[1]}", "field \"inputs\""),
    (
        "{\"version\":1,\"inputs\":[{},{},{},{},{},{},{},{},{},{},{},{},{},{},{},{},{}]}",
        "field \"inputs\"",
    ),
    (
        "{\"version\":1,\"b\":1,\"inputs\":[],\"a\":1}",
        "field \"a\"",
    ),
    (
        "{\"version\":1,\"inputs\":[],\"\\u00e9\":1}",
        "field \"\\u00e9\"",
    ),
    (
        "{\"version\":1,\"inputs\":[],\"pieces\":1}",
        "field \"pieces\"",
    ),
    (
        "{\"version\":1,\"inputs\":[],\"turns\":0}",
        "range \"turns\"",
    ),
    (
        "{\"version\":1,\"inputs\":[],\"turns\":1000001}",
        "range \"turns\"",
    ),
    (
        "{\"version\":1,\"inputs\":[],\"turns\":-1}",
        "field \"turns\"",
    ),
    (
        "{\"version\":1,\"inputs\":[],\"turns\":1.0}",
        "field \"turns\"",
    ),
    (
        "{\"version\":1,\"inputs\":[],\"turns\":\"5\"}",
        "field \"turns\"",
    ),
    (
        "{\"version\":1,\"inputs\":[],\"turns\":null}",
        "field \"turns\"",
    ),
    (
        "{\"version\":1,\"inputs\":[],\"paths\":65537}",
        "range \"paths\"",
    ),
    (
        "{\"version\":1,\"inputs\":[],\"candidates\":0}",
        "range \"candidates\"",
    ),
    (
        "{\"version\":1,\"inputs\":[],\"candidates\":65537}",
        "range \"candidates\"",
    ),
    (
        "{\"version\":1,\"inputs\":[],\"steps\":9007199254740992}",
        "range \"steps\"",
    ),
    (
        "{\"version\":1,\"inputs\":[],\"steps\":18446744073709551616}",
        "field \"steps\"",
    ),
    (
        "{\"version\":1,\"inputs\":[],\"width\":1000000001}",
        "range \"width\"",
    ),
    (
        "{\"version\":1,\"inputs\":[],\"width\":true}",
        "field \"width\"",
    ),
    (
        "{\"width\":0,\"steps\":-0,\"candidates\":0,\"version\":1}",
        "range \"candidates\"",
    ),
    (
        "{\"paths\":0,\"turns\":\"x\",\"version\":1}",
        "field \"turns\"",
    ),
    (
        "{\"turns\":0,\"version\":1,\"inputs\":[{}]}",
        "range \"turns\"",
    ),
    (
        "{\"turns\":5,\"turns\":0,\"version\":1,\"inputs\":[]}",
        "range \"turns\"",
    ),
];

/// What stands between the brackets of the inputs, and why the file is refused.
const INPUTS: [(&str, &str); 45] = [
    ("{\"kind\":\"int\",\"low\":0,\"high\":1}", "field \"name\""),
    (
        "{\"name\":\"\",\"kind\":\"int\",\"low\":0,\"high\":1}",
        "field \"name\"",
    ),
    (
        "{\"name\":\"1a\",\"kind\":\"int\",\"low\":0,\"high\":1}",
        "field \"name\"",
    ),
    (
        "{\"name\":\"if\",\"kind\":\"int\",\"low\":0,\"high\":1}",
        "field \"name\"",
    ),
    (
        "{\"name\":\"eval\",\"kind\":\"int\",\"low\":0,\"high\":1}",
        "field \"name\"",
    ),
    (
        "{\"name\":\"\\u00e9\",\"kind\":\"int\",\"low\":0,\"high\":1}",
        "field \"name\"",
    ),
    (
        "{\"name\":5,\"kind\":\"int\",\"low\":0,\"high\":1}",
        "field \"name\"",
    ),
    (
        "{\"name\":\"aaaaaaaaaaaaaaaaaaaaaaaaaaaaaaaaa\",\"kind\":\"int\",\"low\":0,\"high\":1}",
        "field \"name\"",
    ),
    (
        "{\"name\":\"n\",\"kind\":\"int\",\"low\":0,\"high\":1},{\"name\":\"n\",\"kind\":\"int\",\"low\":0,\"high\":1}",
        "field \"name\"",
    ),
    (
        "{\"name\":\"n\",\"kind\":\"int\",\"low\":0,\"high\":1},{\"name\":\"n\",\"kind\":\"text\",\"least\":0,\"most\":1,\"alphabet\":\"ab\"}",
        "field \"name\"",
    ),
    ("{\"name\":\"n\",\"low\":0,\"high\":1}", "field \"kind\""),
    (
        "{\"name\":\"n\",\"kind\":\"Int\",\"low\":0,\"high\":1}",
        "field \"kind\"",
    ),
    (
        "{\"name\":\"n\",\"kind\":1,\"low\":0,\"high\":1}",
        "field \"kind\"",
    ),
    (
        "{\"name\":\"n\",\"kind\":\"int\",\"high\":1}",
        "field \"low\"",
    ),
    (
        "{\"name\":\"n\",\"kind\":\"int\",\"low\":0.5,\"high\":1}",
        "field \"low\"",
    ),
    (
        "{\"name\":\"n\",\"kind\":\"int\",\"low\":\"0\",\"high\":1}",
        "field \"low\"",
    ),
    (
        "{\"name\":\"n\",\"kind\":\"int\",\"low\":-0,\"high\":1}",
        "field \"low\"",
    ),
    (
        "{\"name\":\"n\",\"kind\":\"int\",\"low\":1e0,\"high\":1}",
        "field \"low\"",
    ),
    (
        "{\"name\":\"n\",\"kind\":\"int\",\"low\":0}",
        "field \"high\"",
    ),
    (
        "{\"name\":\"n\",\"kind\":\"int\",\"low\":3,\"high\":2}",
        "range \"n\"",
    ),
    (
        "{\"name\":\"n\",\"kind\":\"int\",\"low\":0,\"high\":9007199254740992}",
        "range \"n\"",
    ),
    (
        "{\"name\":\"n\",\"kind\":\"int\",\"low\":-9007199254740992,\"high\":1}",
        "range \"n\"",
    ),
    (
        "{\"name\":\"n\",\"kind\":\"int\",\"low\":0,\"high\":18446744073709551615}",
        "range \"n\"",
    ),
    (
        "{\"name\":\"n\",\"kind\":\"int\",\"low\":0,\"high\":1,\"least\":0}",
        "field \"least\"",
    ),
    (
        "{\"name\":\"s\",\"kind\":\"text\",\"most\":1,\"alphabet\":\"ab\"}",
        "field \"least\"",
    ),
    (
        "{\"name\":\"s\",\"kind\":\"text\",\"least\":0,\"alphabet\":\"ab\"}",
        "field \"most\"",
    ),
    (
        "{\"name\":\"s\",\"kind\":\"text\",\"least\":0,\"most\":1}",
        "field \"alphabet\"",
    ),
    (
        "{\"name\":\"s\",\"kind\":\"text\",\"least\":0,\"most\":1,\"alphabet\":5}",
        "field \"alphabet\"",
    ),
    (
        "{\"name\":\"s\",\"kind\":\"text\",\"least\":\"0\",\"most\":1,\"alphabet\":\"ab\"}",
        "field \"least\"",
    ),
    (
        "{\"name\":\"s\",\"kind\":\"text\",\"least\":-1,\"most\":1,\"alphabet\":\"ab\"}",
        "range \"s\"",
    ),
    (
        "{\"name\":\"s\",\"kind\":\"text\",\"least\":2,\"most\":1,\"alphabet\":\"ab\"}",
        "range \"s\"",
    ),
    (
        "{\"name\":\"s\",\"kind\":\"text\",\"least\":0,\"most\":65,\"alphabet\":\"ab\"}",
        "range \"s\"",
    ),
    (
        "{\"name\":\"s\",\"kind\":\"text\",\"least\":2,\"most\":1,\"alphabet\":\"\"}",
        "range \"s\"",
    ),
    (
        "{\"name\":\"s\",\"kind\":\"text\",\"least\":0,\"most\":1,\"alphabet\":\"\"}",
        "alphabet \"s\"",
    ),
    (
        "{\"name\":\"s\",\"kind\":\"text\",\"least\":0,\"most\":1,\"alphabet\":\"aba\"}",
        "alphabet \"s\"",
    ),
    (
        "{\"name\":\"s\",\"kind\":\"text\",\"least\":0,\"most\":1,\"alphabet\":\"\\u0100\\u0101\\u0102\\u0103\\u0104\\u0105\\u0106\\u0107\\u0108\\u0109\\u010a\\u010b\\u010c\\u010d\\u010e\\u010f\\u0110\\u0111\\u0112\\u0113\\u0114\\u0115\\u0116\\u0117\\u0118\\u0119\\u011a\\u011b\\u011c\\u011d\\u011e\\u011f\\u0120\\u0121\\u0122\\u0123\\u0124\\u0125\\u0126\\u0127\\u0128\\u0129\\u012a\\u012b\\u012c\\u012d\\u012e\\u012f\\u0130\\u0131\\u0132\\u0133\\u0134\\u0135\\u0136\\u0137\\u0138\\u0139\\u013a\\u013b\\u013c\\u013d\\u013e\\u013f\\u0140\\u0141\\u0142\\u0143\\u0144\\u0145\\u0146\\u0147\\u0148\\u0149\\u014a\\u014b\\u014c\\u014d\\u014e\\u014f\\u0150\\u0151\\u0152\\u0153\\u0154\\u0155\\u0156\\u0157\\u0158\\u0159\\u015a\\u015b\\u015c\\u015d\\u015e\\u015f\\u0160\\u0161\\u0162\\u0163\\u0164\\u0165\\u0166\\u0167\\u0168\\u0169\\u016a\\u016b\\u016c\\u016d\\u016e\\u016f\\u0170\\u0171\\u0172\\u0173\\u0174\\u0175\\u0176\\u0177\\u0178\\u0179\\u017a\\u017b\\u017c\\u017d\\u017e\\u017f\\u0180\\u0181\\u0182\\u0183\\u0184\\u0185\\u0186\\u0187\\u0188\\u0189\\u018a\\u018b\\u018c\\u018d\\u018e\\u018f\\u0190\\u0191\\u0192\\u0193\\u0194\\u0195\\u0196\\u0197\\u0198\\u0199\\u019a\\u019b\\u019c\\u019d\\u019e\\u019f\\u01a0\\u01a1\\u01a2\\u01a3\\u01a4\\u01a5\\u01a6\\u01a7\\u01a8\\u01a9\\u01aa\\u01ab\\u01ac\\u01ad\\u01ae\\u01af\\u01b0\\u01b1\\u01b2\\u01b3\\u01b4\\u01b5\\u01b6\\u01b7\\u01b8\\u01b9\\u01ba\\u01bb\\u01bc\\u01bd\\u01be\\u01bf\\u01c0\\u01c1\\u01c2\\u01c3\\u01c4\\u01c5\\u01c6\\u01c7\\u01c8\\u01c9\\u01ca\\u01cb\\u01cc\\u01cd\\u01ce\\u01cf\\u01d0\\u01d1\\u01d2\\u01d3\\u01d4\\u01d5\\u01d6\\u01d7\\u01d8\\u01d9\\u01da\\u01db\\u01dc\\u01dd\\u01de\\u01df\\u01e0\\u01e1\\u01e2\\u01e3\\u01e4\\u01e5\\u01e6\\u01e7\\u01e8\\u01e9\\u01ea\\u01eb\\u01ec\\u01ed\\u01ee\\u01ef\\u01f0\\u01f1\\u01f2\\u01f3\\u01f4\\u01f5\\u01f6\\u01f7\\u01f8\\u01f9\\u01fa\\u01fb\\u01fc\\u01fd\\u01fe\\u01ff\\u0200\"}",
        "alphabet \"s\"",
    ),
    (
        "{\"name\":\"s\",\"kind\":\"text\",\"least\":0,\"most\":1,\"alphabet\":\"\\ud83d\\ude00\\ud83d\\ude01\"}",
        "alphabet \"s\"",
    ),
    (
        "{\"name\":\"s\",\"kind\":\"text\",\"least\":0,\"most\":1,\"alphabet\":\"ab\",\"low\":0}",
        "field \"low\"",
    ),
    (
        "{\"name\":\"s\",\"kind\":\"text\",\"least\":0,\"most\":1,\"alphabet\":\"a\",\"high\":0}",
        "field \"high\"",
    ),
    (
        "{\"name\":\"n\",\"kind\":\"int\",\"low\":0,\"high\":1,\"x\":0},{\"name\":\"m\",\"kind\":\"int\",\"high\":1}",
        "field \"low\"",
    ),
    (
        "{\"name\":\"n\",\"kind\":\"int\",\"low\":0,\"high\":1,\"x\":0},{\"name\":\"s\",\"kind\":\"text\",\"least\":0,\"most\":1,\"alphabet\":\"aa\"}",
        "alphabet \"s\"",
    ),
    (
        "{\"name\":\"n\",\"kind\":\"int\",\"low\":0,\"high\":1,\"x\":0},{\"name\":\"s\",\"kind\":\"text\",\"least\":0,\"most\":1,\"alphabet\":\"ab\",\"b\":0}",
        "field \"x\"",
    ),
    (
        "{\"name\":\"N\",\"kind\":\"int\",\"low\":0,\"high\":1,\"z\":1,\"x\":0}",
        "field \"x\"",
    ),
    (
        "{\"name\":\"n\",\"kind\":\"text\",\"low\":0,\"high\":1}",
        "field \"least\"",
    ),
    (
        "{\"name\":\"s\",\"kind\":\"int\",\"least\":0,\"most\":1,\"alphabet\":\"ab\"}",
        "field \"low\"",
    ),
];

fn joined(alloc: Global, front: &str, middle: &str, back: &str) -> Result<String, NoMemory> {
    let mut text = String::from_str(alloc, front)?;
    text.push_str(middle)?;
    text.push_str(back)?;
    Ok(text)
}

/// The first file, with this front and back, that is refused otherwise beside the script `;`.
fn wrong_row<R: Threads + Sync>(
    rt: &R,
    alloc: Global,
    rows: &[(&str, &str)],
    front: &str,
    back: &str,
) -> Result<Option<usize>, Fail> {
    for (row, (middle, why)) in rows.iter().enumerate() {
        let file = joined(alloc, front, middle, back)?;
        let text = joined(alloc, "bounds refused: ", why, "\n")?;
        if !is_answered(
            rt,
            alloc,
            "list s b",
            b";",
            file.as_str(),
            6,
            text.as_bytes(),
        )? {
            return Ok(Some(row));
        }
    }
    Ok(None)
}

#[test]
fn refusals(rt: HostRuntime) -> Result<(), Fail> {
    let alloc = rt.alloc();
    let found = [
        wrong_row(&rt, alloc, &FILES, "", "")?,
        wrong_row(&rt, alloc, &INPUTS, "{\"version\":1,\"inputs\":[", "]}")?,
    ];
    assert_eq!(rt; found, [None, None]);
    Ok(())
}
