//! What kind of object an object is.

use path_core::ErrorName;

/// What an object is besides its properties and items.
#[derive(Clone, Copy)]
pub enum Class {
    Plain,
    Array,
    /// The result of a match: an array with more properties.
    Match,
    /// A function of the script, by its code and the scope that it closes over.
    Function { code: u32, scope: u32 },
    /// A pattern, by its literal.
    Pattern { literal: u32 },
    /// An error, thrown by the engine or made by the script.
    Error { name: ErrorName, engine: bool },
}
