//! Literals, clauses in conjunctive normal form, and derivations whose steps carry hints: what a
//! solver answers and a checker reads, with the definitions of their meaning.
#![tactic(auto)]

mod clauses;
mod literal;

pub use clauses::{Cnf, Derivation, ProofStep};
pub use literal::Lit;
