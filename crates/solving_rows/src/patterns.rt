//! Patterns: what spells them, and what they match.

mod matches;
mod printing;
mod refusals;
mod spellings;

use js_units::{NoMemory, Units};
use re_ast::Pattern;
use re_parser::parse_pattern;
use std::alloc::Global;

/// The pattern that the texts spell.
fn parsed(alloc: Global, body: &str, flags: &str) -> Result<Option<Pattern>, NoMemory> {
    let body = Units::from_text(alloc, body)?;
    let flags = Units::from_text(alloc, flags)?;
    Ok(parse_pattern(alloc, &body, &flags).ok())
}
