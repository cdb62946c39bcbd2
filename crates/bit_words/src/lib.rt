//! Bits and words over clauses: gates, and sums, differences, products, quotients, remainders and
//! comparisons of whole numbers in two's complement, of any widths.
//!
//! Each call adds variables and clauses that have, for every assignment of the earlier bits, exactly
//! one of the new ones, and says what was made of them. The earlier bits and clauses stand whatever is
//! answered. Products are made row by row, quotients by long division of the magnitudes.
#![tactic(auto)]

mod builder;
mod comparing;
mod division;
mod gates;
mod joining;
mod products;
mod sums;
mod threads;
mod words;

pub use builder::Builder;
pub use joining::BitGate;
pub use words::BitInt;
