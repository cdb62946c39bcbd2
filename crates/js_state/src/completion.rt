//! How parts of a script end, and what names and chains of suffixes come to.

use crate::builtins::{Builtin, Method, Static};
use path_core::End;
use term_table::Shadow;

/// What a name, a property or a chain of suffixes has come to (ECMA-262, section 6.2.5).
#[derive(Drop)]
pub enum Reference {
    /// A value that was read, and the object that a call of it has as `this`.
    Callee {
        value: Shadow,
        this: Option<u32>,
    },
    /// A built-in name, at its site.
    Intrinsic {
        site: u32,
        name: Builtin,
    },
    /// A listed property of a built-in name, at its own site.
    Static {
        site: u32,
        key: Static,
    },
    /// A built-in method of a value, at its site.
    Method {
        site: u32,
        base: Shadow,
        method: Method,
    },
}

/// How a part of a script ended (ECMA-262, section 6.2.4): an expression with a value or a reference, a statement; or with
/// which end the whole run stopped.
#[derive(Drop)]
pub enum Completion {
    Value(Shadow),
    Refers(Reference),
    Normal,
    Break,
    Continue,
    Return(Shadow),
    Throw { site: u32, value: Shadow },
    Stop(End),
}
