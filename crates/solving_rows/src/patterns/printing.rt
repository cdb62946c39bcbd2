//! Trees of patterns in a compact print, over a stack of what is still to be printed.
//!
//! `'c` is the unit of an ASCII character, `#n` any other unit; `_` nothing; `[a-b c-d]` and `[^a-b]`
//! classes by the numbers of their units; `(k x)` a group, `\k` a backreference, `(=x)` and `(!x)`
//! lookaheads; `{min,max x first:past}` a repetition, with `?` behind `max` where it is lazy, and `-`
//! for no `max`; `<x y>` a sequence and `|x y|` alternatives.

use js_units::NoMemory;
use re_ast::{ClassSet, Node};
use std::alloc::Global;

/// A piece that is still to be printed.
#[derive(Clone, Copy)]
enum Piece<'a> {
    Text(&'static str),
    Number(u32),
    Unit(u16),
    Node(&'a Node),
}

/// The pieces of the node at hand, in their order. One that finds no memory is missing.
#[derive(Drop)]
struct Row<'a> {
    pieces: Vec<Piece<'a>>,
}

impl<'a> Row<'a> {
    fn put(&mut self, piece: Piece<'a>) {
        let _kept = self.pieces.push(piece);
    }

    fn text(&mut self, text: &'static str) {
        self.put(Piece::Text(text));
    }

    fn number(&mut self, number: u32) {
        self.put(Piece::Number(number));
    }

    fn node(&mut self, node: &'a Node) {
        self.put(Piece::Node(node));
    }

    fn nodes(&mut self, nodes: &'a [Node]) {
        let mut before = "";
        for node in nodes {
            self.text(before);
            self.node(node);
            before = " ";
        }
    }

    fn class(&mut self, set: &'a ClassSet) {
        self.text(if set.negated { "[^" } else { "[" });
        let mut before = "";
        for (low, high) in set.ranges.as_slice() {
            self.text(before);
            self.number(u32::from(*low));
            self.text("-");
            self.number(u32::from(*high));
            before = " ";
        }
        self.text("]");
    }

    fn most(&mut self, max: Option<u32>) {
        match max {
            Some(max) => self.number(max),
            None => self.text("-"),
        }
    }

    /// Those that have nodes below them.
    fn around(&mut self, node: &'a Node) {
        match node {
            Node::Group { index, body } => {
                self.text("(");
                self.number(*index);
                self.text(" ");
                self.node(body.get());
                self.text(")");
            }
            Node::Look { negative, body } => {
                self.text(if *negative { "(!" } else { "(=" });
                self.node(body.get());
                self.text(")");
            }
            Node::Repeat {
                body,
                min,
                max,
                lazy,
                first,
                past,
            } => {
                self.text("{");
                self.number(*min);
                self.text(",");
                self.most(*max);
                self.text(if *lazy { "? " } else { " " });
                self.node(body.get());
                self.text(" ");
                self.number(*first);
                self.text(":");
                self.number(*past);
                self.text("}");
            }
            Node::Seq(parts) => {
                self.text("<");
                self.nodes(parts.as_slice());
                self.text(">");
            }
            Node::Alt(parts) => {
                self.text("|");
                self.nodes(parts.as_slice());
                self.text("|");
            }
            _ => self.text("unknown"),
        }
    }

    fn fill(&mut self, node: &'a Node) {
        match node {
            Node::Empty => self.text("_"),
            Node::Unit(unit) => self.put(Piece::Unit(*unit)),
            Node::Dot => self.text("."),
            Node::Class(set) => self.class(set),
            Node::LineStart => self.text("^"),
            Node::LineEnd => self.text("$"),
            Node::Word => self.text("\\b"),
            Node::NotWord => self.text("\\B"),
            Node::Back(index) => {
                self.text("\\");
                self.number(*index);
            }
            node => self.around(node),
        }
    }
}

fn add(alloc: Global, out: &mut String, number: u32) -> Result<(), NoMemory> {
    out.push_str(number.to_string(alloc)?.as_str())?;
    Ok(())
}

fn add_unit(alloc: Global, out: &mut String, unit: u16) -> Result<(), NoMemory> {
    if 33 <= unit && unit <= 126 {
        out.push_str("'")?;
        out.push(unit as u8 as char)?;
        return Ok(());
    }
    out.push_str("#")?;
    add(alloc, out, u32::from(unit))
}

/// The pieces of a node come before those that are left.
fn unfold<'a>(alloc: Global, node: &'a Node, left: &mut Vec<Piece<'a>>) -> Result<(), NoMemory> {
    let mut row = Row {
        pieces: Vec::new(alloc),
    };
    row.fill(node);
    for piece in row.pieces.as_slice().iter().rev() {
        left.push(*piece)?;
    }
    Ok(())
}

fn print_piece<'a>(
    alloc: Global,
    out: &mut String,
    piece: Piece<'a>,
    left: &mut Vec<Piece<'a>>,
) -> Result<(), NoMemory> {
    match piece {
        Piece::Text(text) => {
            out.push_str(text)?;
            Ok(())
        }
        Piece::Number(number) => add(alloc, out, number),
        Piece::Unit(unit) => add_unit(alloc, out, unit),
        Piece::Node(node) => unfold(alloc, node, left),
    }
}

/// Prints the tree. No table has as many pieces as may not be.
pub fn print(alloc: Global, out: &mut String, node: &Node) -> Result<(), NoMemory> {
    let mut left = Vec::new(alloc);
    left.push(Piece::Node(node))?;
    for _ in 0..1_000_000u32 {
        match left.pop() {
            Some(piece) => print_piece(alloc, out, piece, &mut left)?,
            None => break,
        }
    }
    Ok(())
}
