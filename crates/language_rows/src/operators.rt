//! Operators and conversions on values without a term.

ghost use Rattle.std.specs.Prelude.{◌≡◌, None, IfOk};
ghost use Rattle.term_table.specs.Fitting.{IsValue};

use js_ast::{BinaryOp, StepOp, UnaryOp};
use js_ops::{binary, step, to_flag, to_text, unary};
use js_units::{NoMemory, Units};
use path_core::{Bounds, End, Why};
use sqlite_items::Items;
use std::alloc::Global;
use std::test::Fail;
use term_table::{Outcome, Plain, Shadow, Table, Text};

/// The left side, the operator, the right side, how many guards are shown, and the value or the reason of the end. A string
/// stands between `'`.
const BINARY: [&str; 66] = [
    "1;+;2;1;3",
    "9007199254740990;+;1;1;9007199254740991",
    "9007199254740991;+;1;0;range",
    "-9007199254740991;+;-1;0;range",
    "NaN;+;1;1;NaN",
    "undefined;+;1;1;NaN",
    "null;+;true;1;1",
    "'a';+;'b';1;'ab'",
    "'a';+;-7;1;'a-7'",
    "null;+;'x';1;'nullx'",
    "undefined;+;'';1;'undefined'",
    "false;+;'!';1;'false!'",
    "NaN;+;'!';1;'NaN!'",
    "'a';+;object;0;convert",
    "object;+;1;0;convert",
    "1;-;2;1;-1",
    "-9007199254740991;-;1;0;range",
    "true;-;null;1;1",
    "'3';-;1;0;convert",
    "-6;*;7;1;-42",
    "94906266;*;94906266;0;range",
    "94906265;*;94906265;1;9007199136250225",
    "9007199254740991;*;-9007199254740991;0;range",
    "0;*;-5;1;0",
    "-42;/;7;1;-6",
    "0;/;-7;1;0",
    "7;/;2;0;divide",
    "7;/;0;0;divide",
    "NaN;/;0;1;NaN",
    "7;%;-3;0;1",
    "-7;%;3;0;-1",
    "-6;%;3;0;0",
    "5;%;0;0;NaN",
    "1;<<;31;0;-2147483648",
    "1;<<;33;0;2",
    "3;<<;-1;0;-2147483648",
    "4294967297;<<;1;0;2",
    "-5;>>;1;0;-3",
    "-1;>>;31;0;-1",
    "2147483648;>>;0;0;-2147483648",
    "-1;>>>;0;0;4294967295",
    "-5;>>>;1;0;2147483645",
    "NaN;>>>;5;0;0",
    "-1;&;4294967295;0;-1",
    "12;&;10;0;8",
    "12;|;10;0;14",
    "-1;^;1;0;-2",
    "9007199254740991;^;0;0;-1",
    "1;<;2;0;true",
    "NaN;<;2;0;false",
    "NaN;>=;NaN;0;false",
    "null;<=;0;0;true",
    "true;>;false;0;true",
    "'10';<;'9';0;true",
    "'a';<;'ab';0;true",
    "'a';>=;'a';0;true",
    "'1';<;2;0;convert",
    "NaN;===;NaN;0;false",
    "NaN;!==;NaN;0;true",
    "null;===;undefined;0;false",
    "'ab';===;'ab';0;true",
    "1;===;true;0;false",
    "object;===;object;0;true",
    "-3;===;-3;0;true",
    "'1';!==;1;0;true",
    "undefined;===;undefined;0;true",
];

/// The operator, its operand, and the value or the reason of the end.
const UNARY: [(UnaryOp, &str, &str); 19] = [
    (UnaryOp::Plus, "true", "1"),
    (UnaryOp::Plus, "undefined", "NaN"),
    (UnaryOp::Plus, "'1'", "convert"),
    (UnaryOp::Minus, "0", "0"),
    (UnaryOp::Minus, "-9007199254740991", "9007199254740991"),
    (UnaryOp::Minus, "NaN", "NaN"),
    (UnaryOp::Not, "''", "true"),
    (UnaryOp::Not, "'0'", "false"),
    (UnaryOp::Not, "NaN", "true"),
    (UnaryOp::Not, "object", "false"),
    (UnaryOp::Complement, "5", "-6"),
    (UnaryOp::Complement, "-1", "0"),
    (UnaryOp::Complement, "4294967295", "0"),
    (UnaryOp::Complement, "object", "convert"),
    (UnaryOp::TypeOf, "undefined", "'undefined'"),
    (UnaryOp::TypeOf, "null", "'object'"),
    (UnaryOp::TypeOf, "false", "'boolean'"),
    (UnaryOp::TypeOf, "NaN", "'number'"),
    (UnaryOp::TypeOf, "''", "'string'"),
];

/// `++` and `--`, the old value, and the new one or the reason of the end.
const STEPS: [(StepOp, &str, &str); 5] = [
    (StepOp::Increment, "-1", "0"),
    (StepOp::Increment, "9007199254740991", "range"),
    (StepOp::Increment, "null", "1"),
    (StepOp::Decrement, "undefined", "NaN"),
    (StepOp::Decrement, "'2'", "convert"),
];

/// A value, its truth, and its text or the reason of the end.
const CONVERTED: [(&str, bool, &str); 11] = [
    ("undefined", false, "'undefined'"),
    ("null", false, "'null'"),
    ("true", true, "'true'"),
    ("false", false, "'false'"),
    ("NaN", false, "'NaN'"),
    ("0", false, "'0'"),
    ("-9007199254740991", true, "'-9007199254740991'"),
    ("''", false, "''"),
    ("'0'", true, "'0'"),
    ("' '", true, "' '"),
    ("object", true, "convert"),
];

/// The number, where it is safe.
fn safe(n: i64) -> Plain
    ensures { IsValue result }
{
    if -9_007_199_254_740_991 <= n && n <= 9_007_199_254_740_991 {
        Plain::Int(n)
    } else {
        Plain::NotNumber
    }
}

/// The content that a text of the tables stands for.
fn content(alloc: Global, text: &str) -> Result<Plain, NoMemory>
    ensures { IfOk result (λ plain. IsValue plain) }
{
    if let [b'\'', inside @ .., b'\''] = text.as_bytes() {
        let units = Units::from_bytes(alloc, inside)?;
        if units.len() <= 65_536 {
            return Ok(Plain::Text(Text::new(alloc, units)?));
        }
    }
    Ok(match text {
        "undefined" => Plain::Undefined,
        "null" => Plain::Null,
        "true" => Plain::Bool(true),
        "false" => Plain::Bool(false),
        "NaN" => Plain::NotNumber,
        "object" => Plain::Object(0),
        number => safe(number.parse::<i64>().unwrap_or(0)),
    })
}

fn bare(alloc: Global, text: &str) -> Result<Shadow, NoMemory>
    ensures { IfOk result (λ shadow. (shadow.term ≡ None) × IsValue shadow.plain) }
{
    let plain = content(alloc, text)?;
    Ok(Shadow { plain, term: None })
}

/// Whether the content is the one that a text of the tables stands for.
fn is_content(found: &Plain, wanted: &str) -> bool {
    match found {
        Plain::Undefined => wanted == "undefined",
        Plain::Null => wanted == "null",
        Plain::Bool(holds) => wanted == if *holds { "true" } else { "false" },
        Plain::NotNumber => wanted == "NaN",
        Plain::Int(n) => wanted.parse::<i64>() == Ok(*n),
        Plain::Text(text) => match wanted.as_bytes() {
            [b'\'', inside @ .., b'\''] => text.units().equals_bytes(inside),
            _ => false,
        },
        Plain::Object(_) => wanted == "object",
    }
}

fn reason(why: Why) -> &'static str {
    match why {
        Why::Range => "range",
        Why::Divide => "divide",
        Why::Convert => "convert",
        Why::Size => "size",
        _ => "",
    }
}

/// Whether the answer shows so many guards and has the wanted value or end.
fn is_answer(found: &Outcome, guards: usize, wanted: &str) -> bool {
    match found {
        Outcome::Value { moves, value } => {
            moves.len() == guards && is_content(&value.plain, wanted)
        }
        Outcome::Stop { moves, exit, .. } => match exit {
            End::Left { why, .. } => moves.len() == guards && reason(*why) == wanted,
            _ => false,
        },
        Outcome::Raise { .. } => false,
    }
}

fn table(alloc: Global) -> Result<Table, NoMemory> {
    let bounds = Bounds {
        turns: 1,
        paths: 1,
        candidates: 1,
        steps: 1,
        width: 1,
        pieces: 1,
        inputs: Items::new(alloc),
    };
    Table::new(alloc, &bounds)
}

fn operator(mark: &str) -> BinaryOp {
    match mark {
        "+" => BinaryOp::Add,
        "-" => BinaryOp::Subtract,
        "*" => BinaryOp::Multiply,
        "/" => BinaryOp::Divide,
        "%" => BinaryOp::Remainder,
        "<<" => BinaryOp::ShiftLeft,
        ">>" => BinaryOp::ShiftRight,
        ">>>" => BinaryOp::ShiftRightZero,
        "&" => BinaryOp::BitAnd,
        "|" => BinaryOp::BitOr,
        "^" => BinaryOp::BitXor,
        "<" => BinaryOp::Less,
        ">" => BinaryOp::Greater,
        "<=" => BinaryOp::LessEqual,
        ">=" => BinaryOp::GreaterEqual,
        "===" => BinaryOp::Equal,
        _ => BinaryOp::NotEqual,
    }
}

fn is_binary(alloc: Global, table: &mut Table, row: &str) -> Result<bool, NoMemory> {
    let mut parts = row.split(';');
    let x = bare(alloc, parts.next().unwrap_or(""))?;
    let op = operator(parts.next().unwrap_or(""));
    let y = bare(alloc, parts.next().unwrap_or(""))?;
    let guards = parts.next().unwrap_or("").parse::<usize>().unwrap_or(9);
    let wanted = parts.next().unwrap_or("");
    let found = binary(alloc, table, 0, op, &x, &y)?;
    let holds = is_answer(&found, guards, wanted);
    drop(found);
    Ok(holds)
}

fn wrong_binary(alloc: Global) -> Result<Option<usize>, NoMemory> {
    let mut table = table(alloc)?;
    for (number, row) in BINARY.iter().enumerate() {
        if !is_binary(alloc, &mut table, row)? {
            return Ok(Some(number));
        }
    }
    Ok(None)
}

fn is_unary(
    alloc: Global,
    table: &mut Table,
    op: UnaryOp,
    x: &str,
    wanted: &str,
) -> Result<bool, NoMemory> {
    let x = bare(alloc, x)?;
    if matches!((op, &x.plain), (UnaryOp::TypeOf, Plain::Object(_))) {
        return Ok(false);
    }
    let found = unary(alloc, table, 0, op, &x)?;
    let holds = is_answer(&found, 0, wanted);
    drop(found);
    Ok(holds)
}

fn wrong_unary(alloc: Global) -> Result<Option<usize>, NoMemory> {
    let mut table = table(alloc)?;
    for (row, (op, x, wanted)) in UNARY.iter().enumerate() {
        if !is_unary(alloc, &mut table, *op, x, wanted)? {
            return Ok(Some(row));
        }
    }
    Ok(None)
}

fn is_step(
    alloc: Global,
    table: &mut Table,
    op: StepOp,
    x: &str,
    wanted: &str,
) -> Result<bool, NoMemory> {
    let guards = match wanted {
        "range" | "convert" => 0,
        _ => 1,
    };
    let x = bare(alloc, x)?;
    let found = step(alloc, table, 0, op, &x)?;
    let holds = is_answer(&found, guards, wanted);
    drop(found);
    Ok(holds)
}

fn wrong_step(alloc: Global) -> Result<Option<usize>, NoMemory> {
    let mut table = table(alloc)?;
    for (row, (op, x, wanted)) in STEPS.iter().enumerate() {
        if !is_step(alloc, &mut table, *op, x, wanted)? {
            return Ok(Some(row));
        }
    }
    Ok(None)
}

fn is_flag(alloc: Global, table: &mut Table, x: &str, holds: bool) -> Result<bool, NoMemory> {
    let x = bare(alloc, x)?;
    let flag = to_flag(alloc, table, &x)?;
    Ok(is_content(&flag.plain, if holds { "true" } else { "false" }))
}

fn is_text(alloc: Global, table: &mut Table, x: &str, wanted: &str) -> Result<bool, NoMemory> {
    let x = bare(alloc, x)?;
    let text = to_text(alloc, table, 0, &x)?;
    let holds = is_answer(&text, 0, wanted);
    drop(text);
    Ok(holds)
}

fn wrong_conversion(alloc: Global) -> Result<Option<usize>, NoMemory> {
    let mut table = table(alloc)?;
    for (row, (x, holds, wanted)) in CONVERTED.iter().enumerate() {
        if !is_flag(alloc, &mut table, x, *holds)? || !is_text(alloc, &mut table, x, wanted)? {
            return Ok(Some(row));
        }
    }
    Ok(None)
}

#[test]
fn operators(rt: HostRuntime) -> Result<(), Fail> {
    let alloc = rt.alloc();
    assert_eq!(rt;
        [
            wrong_binary(alloc)?,
            wrong_unary(alloc)?,
            wrong_step(alloc)?,
            wrong_conversion(alloc)?
        ],
        [None; 4]
    );
    Ok(())
}
