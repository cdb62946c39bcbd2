//! A reader of patterns: what was read, and the groups that are open.

ghost use Rattle.std.specs.Prelude.{◌≡◌, ◌<◌, ◌≤◌, ◌+◌, length, Some, IfOk};
ghost use Rattle.re_parser.specs.Grammar.{begun};
ghost use Rattle.re_parser.specs.Classes.{map_ok};
ghost use Rattle.re_parser.specs.Reading.{Gives, Faults, OpenFault, CloseFault, TurnFault, FaultOf, MembersGo, MembersStop, NoMark, with_term, with_bar, with_back, with_atom, opened_by, with_open, with_close, turned, ClassTurns, Turns, Steps, ReadsAll, start};

use crate::classes::members;
use crate::faults::piece_fault;
use crate::kinds::{Atom, GroupKind, Piece};
use crate::pieces::piece;
use crate::refusal::Fault;
use crate::trees::{assertion_node, atom_node, closed, disjunction, quantified, seq_of};
use pile::Pile;
use re_ast::{ClassSet, Node};
use sqlite_items::Items;
use std::alloc::Global;
use std::mem::replace;

/// At most this many `(` are open at a place.
const MAX_OPEN: usize = 100;

/// At most this many groups capture.
const MAX_GROUPS: u8 = 9;

/// An open group or lookahead, with what was read in front of it.
#[derive(Drop)]
pub struct Frame {
    pub kind: GroupKind,
    /// How many groups began before it.
    pub before: u8,
    pub alternatives: Items<Node>,
    pub terms: Items<Node>,
}

/// A backreference, with the number of units from its backslash on.
#[derive(Clone, Copy)]
pub struct Backreference {
    pub number: u32,
    pub left: usize,
}

/// What was read so far.
#[derive(Drop)]
pub struct Reader {
    pub frames: Pile<Frame>,
    /// The alternatives before the last `|`.
    pub alternatives: Items<Node>,
    pub terms: Items<Node>,
    /// How many groups began.
    pub groups: u8,
    pub backs: Items<Backreference>,
}

impl Reader {
    fn new(alloc: Global) -> Reader
        ensures { result ≡ start }
    {
        Reader {
            frames: Pile::new(alloc),
            alternatives: Items::new(alloc),
            terms: Items::new(alloc),
            groups: 0,
            backs: Items::new(alloc),
        }
    }
}

fn with_term<'a>(reader: &mut Reader, node: Node, rest: &'a [u16]) -> Result<&'a [u16], Fault>
    ensures read { Gives (λ x. (reader.new, x.now)) result (Some (with_term reader.old (node, rest.now))) }
    ensures behind { IfOk result (λ x. x.now ≡ rest.now) }
{
    reader.terms.push(node)?;
    Ok(rest)
}

/// A `|`.
fn with_bar(alloc: Global, reader: &mut Reader) -> Result<(), Fault>
    ensures { Gives (λ _. reader.new) result (Some (with_bar reader.old)) }
{
    let terms = replace(&mut reader.terms, Items::new(alloc));
    reader.alternatives.push(seq_of(terms))?;
    Ok(())
}

fn with_back(reader: &mut Reader, atom: Atom, left: usize) -> Result<(), Fault>
    ensures { Gives (λ _. reader.new) result (Some (with_back reader.old atom left)) }
{
    match atom {
        Atom::Back(number) => {
            reader.backs.push(Backreference { number, left })?;
            Ok(())
        }
        _ => Ok(()),
    }
}

fn with_atom<'a>(
    alloc: Global,
    reader: &mut Reader,
    atom: Atom,
    units: &[u16],
    rest: &'a [u16],
) -> Result<&'a [u16], Fault>
    ensures read { Gives (λ x. (reader.new, x.now)) result (Some (with_atom reader.old atom units.now rest.now)) }
    ensures shorter { IfOk result (λ x. length x.now ≤ length rest.now) }
{
    with_back(reader, atom, units.len())?;
    let next = u32::from(reader.groups) + 1;
    let node = atom_node(alloc, atom)?;
    let (term, behind) = quantified(alloc, next, node, next, rest)?;
    with_term(reader, term, behind)
}

/// How many groups have begun behind a `(`.
#[tactic(auto, unfolding(crate::specs::Grammar::begun))]
fn begun(kind: GroupKind, before: u8) -> Option<u8>
    ensures { result ≡ begun kind before }
{
    match kind {
        GroupKind::Capturing => {
            if before < MAX_GROUPS {
                Some(before + 1)
            } else {
                None
            }
        }
        _ => Some(before),
    }
}

/// A `(`, with `left` units from it on.
fn with_open(alloc: Global, reader: &mut Reader, kind: GroupKind, left: usize) -> Result<(), Fault>
    ensures read { Gives (λ _. reader.new) result (with_open reader.old kind) }
    ensures faults { Faults (OpenFault reader.old kind left) result }
{
    if reader.frames.len() >= MAX_OPEN {
        return Err(Fault::Syntax { left });
    }
    let Some(within) = begun(kind, reader.groups) else {
        return Err(Fault::TooManyGroups { left });
    };
    let alternatives = replace(&mut reader.alternatives, Items::new(alloc));
    let terms = replace(&mut reader.terms, Items::new(alloc));
    reader.frames.push(Frame {
        kind,
        before: reader.groups,
        alternatives,
        terms,
    })?;
    reader.groups = within;
    Ok(())
}

/// A `)`, with `left` units from it on.
fn with_close<'a>(
    alloc: Global,
    reader: &mut Reader,
    rest: &'a [u16],
    left: usize,
) -> Result<&'a [u16], Fault>
    ensures read { Gives (λ x. (reader.new, x.now)) result (with_close reader.old rest.now) }
    ensures faults { Faults (CloseFault reader.old left) result }
    ensures shorter { IfOk result (λ x. length x.now ≤ length rest.now) }
{
    let past = u32::from(reader.groups) + 1;
    let Some(frame) = reader.frames.pop() else {
        return Err(Fault::Syntax { left });
    };
    let Frame {
        kind,
        before,
        alternatives,
        terms,
    } = frame;
    let alternatives = replace(&mut reader.alternatives, alternatives);
    let terms = replace(&mut reader.terms, terms);
    let body = disjunction(alternatives, terms)?;
    let first = u32::from(before) + 1;
    let (term, behind) = closed(alloc, kind, first, body, past, rest)?;
    with_term(reader, term, behind)
}

/// `[` or `[^`.
fn with_class<'a>(
    alloc: Global,
    reader: &mut Reader,
    negated: bool,
    inside: &'a [u16],
) -> Result<&'a [u16], Fault>
    ensures read { ClassTurns reader.old negated inside.now (map_ok (λ x. (reader.new, x.now)) result) }
    ensures faults { Faults (FaultOf MembersGo MembersStop NoMark inside.now) result }
    ensures shorter { IfOk result (λ x. length x.now ≤ length inside.now) }
{
    let (ranges, rest) = members(alloc, inside)?;
    let next = u32::from(reader.groups) + 1;
    let class = Node::Class(ClassSet { ranges, negated });
    let (term, behind) = quantified(alloc, next, class, next, rest)?;
    with_term(reader, term, behind)
}

/// One piece, behind which `rest` stands; `units` are those from the piece on.
fn turn<'a>(
    alloc: Global,
    reader: &mut Reader,
    units: &[u16],
    piece: Piece,
    rest: &'a [u16],
) -> Result<&'a [u16], Fault>
    ensures read { Turns reader.old units.now piece rest.now (map_ok (λ x. (reader.new, x.now)) result) }
    ensures faults { Faults (TurnFault reader.old units.now piece rest.now) result }
    ensures shorter { IfOk result (λ x. length x.now ≤ length rest.now) }
{
    match piece {
        Piece::Bar => {
            with_bar(alloc, reader)?;
            Ok(rest)
        }
        Piece::Close => {
            let behind = with_close(alloc, reader, rest, units.len())?;
            Ok(behind)
        }
        Piece::Open(kind) => {
            with_open(alloc, reader, kind, units.len())?;
            Ok(rest)
        }
        Piece::Assertion(assertion) => {
            let behind = with_term(reader, assertion_node(assertion), rest)?;
            Ok(behind)
        }
        Piece::Atom(atom) => {
            let behind = with_atom(alloc, reader, atom, units, rest)?;
            Ok(behind)
        }
        Piece::Class(negated) => {
            let behind = with_class(alloc, reader, negated, rest)?;
            Ok(behind)
        }
    }
}

/// The piece in front.
fn step<'a>(alloc: Global, reader: &mut Reader, units: &'a [u16]) -> Result<&'a [u16], Fault>
    requires { 0 < length units.now }
    ensures read { Steps reader.old units.now (map_ok (λ x. (reader.new, x.now)) result) }
    ensures shorter { IfOk result (λ x. length x.now < length units.now) }
{
    let deep = reader.frames.len() >= MAX_OPEN;
    let Some((piece, rest)) = piece(units) else {
        return Err(piece_fault(deep, units));
    };
    turn(alloc, reader, units, piece, rest)
}

/// All of the units.
pub fn read_all(alloc: Global, units: &[u16]) -> Result<Reader, Fault>
    ensures { ReadsAll units.now result }
{
    let mut reader = Reader::new(alloc);
    let mut left = units;
    while left.len() > 0 {
        match step(alloc, &mut reader, left) {
            Ok(behind) => left = behind,
            Err(fault) => return Err(fault),
        }
    }
    Ok(reader)
}
