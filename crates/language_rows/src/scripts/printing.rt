//! Trees in few characters, without their sites, over a stack of what is still to be printed.

use super::print_expressions::expression;
use super::print_statements::statement;
use js_ast::{Expr, Identifier, Stmt};
use js_units::{Units, decimal};
use sqlite_items::{Boxed, Items};
use std::alloc::Global;
use std::mem::replace;

/// A piece that is still to be printed.
#[derive(Clone, Copy)]
enum Piece<'a> {
    Text(&'static str),
    Units(&'a Units),
    Number(u64),
    Expression(&'a Expr),
    Statement(&'a Stmt),
}

/// What is printed, and the pieces that are still to be: those of the tree at hand in their order, and behind them
/// those of the trees around it, the next one last. Where memory runs out, something else is printed.
#[derive(Drop)]
pub struct Printer<'a> {
    alloc: Global,
    bytes: Vec<u8>,
    row: Vec<Piece<'a>>,
    left: Vec<Piece<'a>>,
}

impl<'a> Printer<'a> {
    fn piece(&mut self, piece: Piece<'a>) {
        if self.row.push(piece).is_err() {
            self.bytes.truncate(0);
        }
    }

    pub fn text(&mut self, text: &'static str) {
        self.piece(Piece::Text(text));
    }

    pub fn units(&mut self, units: &'a Units) {
        self.piece(Piece::Units(units));
    }

    pub fn number(&mut self, number: u64) {
        self.piece(Piece::Number(number));
    }

    pub fn expression(&mut self, value: &'a Boxed<Expr>) {
        self.piece(Piece::Expression(value.get()));
    }

    pub fn statement(&mut self, value: &'a Stmt) {
        self.piece(Piece::Statement(value));
    }

    pub fn expressions(&mut self, items: &'a Items<Boxed<Expr>>) {
        let mut before = "";
        for item in items.as_slice() {
            self.text(before);
            self.expression(item);
            before = " ";
        }
    }

    pub fn names(&mut self, names: &'a Items<Identifier>) {
        self.text("(");
        let mut before = "";
        for name in names.as_slice() {
            self.text(before);
            self.units(&name.name);
            before = " ";
        }
        self.text(")");
    }

    pub fn statements(&mut self, body: &'a [Stmt]) {
        let mut before = "";
        for one in body {
            self.text(before);
            self.statement(one);
            before = " | ";
        }
    }

    pub fn block(&mut self, body: &'a Items<Stmt>) {
        self.text("{");
        self.statements(body.as_slice());
        self.text("}");
    }

    /// The pieces at hand come before those that were left.
    fn settle(&mut self) {
        let row = replace(&mut self.row, Vec::new(self.alloc));
        for piece in row.as_slice().iter().rev() {
            if self.left.push(*piece).is_err() {
                self.bytes.truncate(0);
            }
        }
    }

    fn print_units(&mut self, units: &Units) {
        for unit in units.as_slice() {
            if self.bytes.push((*unit % 128) as u8).is_err() {
                self.bytes.truncate(0);
            }
        }
    }

    fn print_number(&mut self, number: u64) {
        match decimal(self.alloc, (number % 9_007_199_254_740_992) as i64) {
            Ok(digits) => self.print_units(&digits),
            Err(_) => self.bytes.truncate(0),
        }
    }

    fn print(&mut self, piece: Piece<'a>) {
        match piece {
            Piece::Text(text) => {
                if self.bytes.extend_from_slice(text.as_bytes()).is_err() {
                    self.bytes.truncate(0);
                }
            }
            Piece::Units(units) => self.print_units(units),
            Piece::Number(number) => self.print_number(number),
            Piece::Expression(value) => expression(self, value),
            Piece::Statement(value) => statement(self, value),
        }
    }
}

/// The statements, parted by ` | `. No table has as many pieces as may not be.
pub fn printed(alloc: Global, body: &[Stmt]) -> Vec<u8> {
    let mut printer = Printer {
        alloc,
        bytes: Vec::new(alloc),
        row: Vec::new(alloc),
        left: Vec::new(alloc),
    };
    printer.statements(body);
    for _ in 0..1_000_000u32 {
        printer.settle();
        match printer.left.pop() {
            Some(piece) => printer.print(piece),
            None => break,
        }
    }
    printer.bytes
}
