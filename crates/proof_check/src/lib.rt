//! The referee of derivations: it says yes exactly where each step is valid and one is the empty
//! clause, and then no assignment makes all clauses true. Whoever made the derivation isn't trusted.
#![tactic(auto)]

mod assuming;
mod checking;
mod hints;
mod marks;

pub use checking::{Verdict, check};
pub use marks::Marks;
