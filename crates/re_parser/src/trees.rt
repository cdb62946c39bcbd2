//! Trees of what was read, and the ranges of classes.

ghost use Rattle.std.specs.Prelude.{◌≡◌, ◌++◌, [], ◌∷◌, ◌<◌, ◌≤◌, length, Some, IfOk};
ghost use Rattle.re_parser.specs.Escapes.{units_of, member_units, item_units};
ghost use Rattle.re_parser.specs.Grammar.{seq_of, alt_of, assertion_node, atom_node, quantified, closed};
ghost use Rattle.re_parser.specs.Reading.{Gives};
ghost use Rattle.re_parser.specs.declared.kinds.ClassEscape.TheVariants as escape;

use crate::kinds::{Assertion, Atom, ClassEscape, ClassItem, GroupKind, Member};
use crate::quantifiers::quantifier;
use crate::refusal::Fault;
use re_ast::{ClassSet, Node};
use sqlite_items::{Boxed, Items};
use std::alloc::Global;

const HYPHEN: u16 = 0x2d;

/// The ranges of a class escape, ascending and as few as possible.
#[tactic(auto, unfolding(crate::specs::Escapes::units_of))]
fn escape_units(alloc: Global, escape: ClassEscape) -> Result<Items<(u16, u16)>, Fault>
    ensures { Gives (λ x. x) result (Some (units_of escape)) }
{
    let made = match escape {
        ClassEscape::Digit => Items::from_slice(alloc, &[(48, 57)])?,
        ClassEscape::NotDigit => Items::from_slice(alloc, &[(0, 47), (58, 65535)])?,
        ClassEscape::Space => space_units(alloc)?,
        ClassEscape::NotSpace => other_units(alloc)?,
        ClassEscape::WordUnit => {
            Items::from_slice(alloc, &[(48, 57), (65, 90), (95, 95), (97, 122)])?
        }
        ClassEscape::NotWordUnit => Items::from_slice(
            alloc,
            &[(0, 47), (58, 64), (91, 94), (96, 96), (123, 65535)],
        )?,
    };
    Ok(made)
}

/// White space and line ends.
#[tactic(auto, unfolding(crate::specs::Escapes::units_of))]
fn space_units(alloc: Global) -> Result<Items<(u16, u16)>, Fault>
    ensures { Gives (λ x. x) result (Some (units_of escape.Space)) }
{
    let made = Items::from_slice(
        alloc,
        &[
            (9, 13),
            (32, 32),
            (160, 160),
            (5760, 5760),
            (8192, 8202),
            (8232, 8233),
            (8239, 8239),
            (8287, 8287),
            (12288, 12288),
            (65279, 65279),
        ],
    )?;
    Ok(made)
}

/// Neither white space nor line ends.
#[tactic(auto, unfolding(crate::specs::Escapes::units_of))]
fn other_units(alloc: Global) -> Result<Items<(u16, u16)>, Fault>
    ensures { Gives (λ x. x) result (Some (units_of escape.NotSpace)) }
{
    let made = Items::from_slice(
        alloc,
        &[
            (0, 8),
            (14, 31),
            (33, 159),
            (161, 5759),
            (5761, 8191),
            (8203, 8231),
            (8234, 8238),
            (8240, 8286),
            (8288, 12287),
            (12289, 65278),
            (65280, 65535),
        ],
    )?;
    Ok(made)
}

#[tactic(auto, unfolding(crate::specs::Escapes::member_units))]
fn member_units(alloc: Global, member: Member) -> Result<Items<(u16, u16)>, Fault>
    ensures { Gives (λ x. x) result (Some (member_units member)) }
{
    match member {
        Member::One(unit) => {
            let made = Items::from_slice(alloc, &[(unit, unit)])?;
            Ok(made)
        }
        Member::Many(escape) => escape_units(alloc, escape),
    }
}

/// Two lists, one behind the other.
fn joined(first: Items<(u16, u16)>, second: Items<(u16, u16)>) -> Result<Items<(u16, u16)>, Fault>
    ensures { Gives (λ x. x) result (Some (first ++ second)) }
{
    let mut made = first;
    made.append(second)?;
    Ok(made)
}

/// The ranges of a member, or of two with `-` between them.
#[tactic(auto, unfolding(crate::specs::Escapes::item_units))]
fn item_units(alloc: Global, item: ClassItem) -> Result<Items<(u16, u16)>, Fault>
    ensures { Gives (λ x. x) result (Some (item_units item)) }
{
    match item {
        ClassItem::Single(member) => member_units(alloc, member),
        ClassItem::Range(low, high) => {
            let made = Items::from_slice(alloc, &[(low, high)])?;
            Ok(made)
        }
        ClassItem::Apart(start, end) => {
            let mut made = member_units(alloc, start)?;
            made.push((HYPHEN, HYPHEN))?;
            let more = member_units(alloc, end)?;
            joined(made, more)
        }
    }
}

/// The ranges of a class with one item more.
pub fn with_item(
    alloc: Global,
    ranges: Items<(u16, u16)>,
    item: ClassItem,
) -> Result<Items<(u16, u16)>, Fault>
    ensures { Gives (λ x. x) result (Some (ranges ++ item_units item)) }
{
    let more = item_units(alloc, item)?;
    joined(ranges, more)
}

/// The terms of an alternative as one node: one is itself.
pub fn seq_of(terms: Items<Node>) -> Node
    ensures { result ≡ seq_of terms }
{
    let mut terms = terms;
    if terms.len() > 1 {
        return Node::Seq(terms);
    }
    match terms.pop() {
        Some(term) => term,
        None => Node::Empty,
    }
}

/// Alternatives as one node: one is itself.
fn alt_of(alternatives: Items<Node>) -> Node
    ensures { result ≡ alt_of alternatives }
{
    let mut alternatives = alternatives;
    if alternatives.len() > 1 {
        return Node::Alt(alternatives);
    }
    match alternatives.pop() {
        Some(alternative) => alternative,
        None => Node::Empty,
    }
}

/// Alternatives, and the terms of one more, as one node.
pub fn disjunction(alternatives: Items<Node>, terms: Items<Node>) -> Result<Node, Fault>
    ensures { Gives (λ x. x) result (Some (alt_of (alternatives ++ seq_of terms ∷ []))) }
{
    let mut alternatives = alternatives;
    alternatives.push(seq_of(terms))?;
    Ok(alt_of(alternatives))
}

#[tactic(auto, unfolding(crate::specs::Grammar::assertion_node))]
pub fn assertion_node(assertion: Assertion) -> Node
    ensures { result ≡ assertion_node assertion }
{
    match assertion {
        Assertion::LineStart => Node::LineStart,
        Assertion::LineEnd => Node::LineEnd,
        Assertion::Word => Node::Word,
        Assertion::NotWord => Node::NotWord,
    }
}

#[tactic(auto, unfolding(crate::specs::Grammar::atom_node))]
pub fn atom_node(alloc: Global, atom: Atom) -> Result<Node, Fault>
    ensures { Gives (λ x. x) result (Some (atom_node atom)) }
{
    match atom {
        Atom::Dot => Ok(Node::Dot),
        Atom::Unit(unit) => Ok(Node::Unit(unit)),
        Atom::Escape(escape) => {
            let ranges = escape_units(alloc, escape)?;
            Ok(Node::Class(ClassSet {
                ranges,
                negated: false,
            }))
        }
        Atom::Back(number) => Ok(Node::Back(number)),
    }
}

/// An atom with the quantifier that stands behind it, and what is behind that. The groups inside the
/// atom are those from `first` up to, but not with, `past`.
#[tactic(auto, unfolding(crate::specs::Grammar::quantified))]
pub fn quantified(
    alloc: Global,
    first: u32,
    body: Node,
    past: u32,
    units: &[u16],
) -> Result<(Node, &[u16]), Fault>
    ensures read { Gives (λ x. (x.0, x.1.now)) result (Some (quantified first body past units.now)) }
    ensures shorter { IfOk result (λ x. length x.1.now ≤ length units.now) }
{
    match quantifier(units) {
        None => Ok((body, units)),
        Some((quantifier, rest)) => {
            let body = Boxed::new(alloc, body)?;
            let repeat = Node::Repeat {
                body,
                min: quantifier.min,
                max: quantifier.max,
                lazy: quantifier.lazy,
                first,
                past,
            };
            Ok((repeat, rest))
        }
    }
}

fn look(alloc: Global, negative: bool, body: Node) -> Result<Node, Fault>
    ensures { Gives (λ x. x) result (Some (Node.Look negative body)) }
{
    let body = Boxed::new(alloc, body)?;
    Ok(Node::Look { negative, body })
}

fn capturing(alloc: Global, index: u32, body: Node) -> Result<Node, Fault>
    ensures { Gives (λ x. x) result (Some (Node.Group index body)) }
{
    let body = Boxed::new(alloc, body)?;
    Ok(Node::Group { index, body })
}

/// A group or lookahead whose `)` was read.
#[tactic(auto, unfolding(crate::specs::Grammar::closed))]
pub fn closed(
    alloc: Global,
    kind: GroupKind,
    first: u32,
    body: Node,
    past: u32,
    units: &[u16],
) -> Result<(Node, &[u16]), Fault>
    ensures read { Gives (λ x. (x.0, x.1.now)) result (Some (closed kind first body past units.now)) }
    ensures shorter { IfOk result (λ x. length x.1.now ≤ length units.now) }
{
    match kind {
        GroupKind::Capturing => {
            let group = capturing(alloc, first, body)?;
            quantified(alloc, first, group, past, units)
        }
        GroupKind::Plain => quantified(alloc, first, body, past, units),
        GroupKind::Ahead => {
            let node = look(alloc, false, body)?;
            Ok((node, units))
        }
        GroupKind::NotAhead => {
            let node = look(alloc, true, body)?;
            Ok((node, units))
        }
    }
}
