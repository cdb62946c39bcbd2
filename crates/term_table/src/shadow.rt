//! Values of a run, each beside the term that it is at other inputs.

use crate::term::TermId;
use crate::text::Text;

/// A value of the language (ECMA-262, section 6.1).
#[derive(Drop)]
pub enum Plain {
    Undefined,
    Null,
    Bool(bool),
    /// A safe integer.
    Int(i64),
    /// NaN.
    NotNumber,
    Text(Text),
    /// An object, by its number.
    Object(u32),
}

/// A value, and the term that it is; without one it is the same at every input that follows the run.
#[derive(Drop)]
pub struct Shadow {
    pub plain: Plain,
    pub term: Option<TermId>,
}
