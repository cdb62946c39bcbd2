//! Parts of statements and expressions. They are generic in the trees below them, so that only the two kinds of
//! trees lead back to themselves.

use crate::operators::DeclarationKind;
use js_units::Units;
use sqlite_items::Items;

/// A name, at its own site (ECMA-262, section 13.1).
#[derive(Drop)]
pub struct Identifier {
    pub site: u32,
    pub name: Units,
}

/// An operator at the site of its mark, and what stands behind it.
#[derive(Drop)]
pub struct Link<O, E> {
    pub site: u32,
    pub op: O,
    pub right: E,
}

/// A property of what stands before it, at the site of the `.` or `[` (ECMA-262, section 13.3.2).
#[derive(Drop)]
pub enum Access<E> {
    /// `.` and a word
    Property { site: u32, name: Units },
    /// An expression between brackets; static where it is one text or number literal, with no parentheses.
    Index { site: u32, is_static: bool, key: E },
}

/// What may follow the first part of a call (ECMA-262, section 13.3).
#[derive(Drop)]
pub enum Suffix<E> {
    Access(Access<E>),
    /// Arguments, at the site of the `(`.
    Call { site: u32, arguments: Items<E> },
}

/// What may be assigned (ECMA-262, section 13.15, simple assignment targets).
#[derive(Drop)]
pub enum Target<E> {
    Name(Identifier),
    Access { base: E, access: Access<E> },
}

/// The key of a member of an object literal. The key of a number is its decimal text.
#[derive(Drop)]
pub enum Key {
    /// A word or a text.
    Text(Units),
    Number(u64),
}

/// A member of an object literal (ECMA-262, section 13.2.5), at the site of its key.
#[derive(Drop)]
pub enum Member<E> {
    /// A key, `:` and a value
    Value { site: u32, key: Key, value: E },
    /// A name alone
    Shorthand(Identifier),
}

/// A declared name, with its initial value where that stands (ECMA-262, section 14.3.1).
#[derive(Drop)]
pub struct Declarator<E> {
    pub name: Identifier,
    pub value: Option<E>,
}

/// What stands first in the head of a `for` (ECMA-262, section 14.7.4).
#[derive(Drop)]
pub enum LoopHead<E> {
    Nothing,
    Value(E),
    Declare {
        kind: DeclarationKind,
        declarators: Items<Declarator<E>>,
    },
}

/// `catch`, with its name where that stands (ECMA-262, section 14.15).
#[derive(Drop)]
pub struct Catch<B> {
    pub name: Option<Identifier>,
    pub body: B,
}
