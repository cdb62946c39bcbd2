//! Rows and tables of patterns, of derivations and of solving.
#![tactic(auto)]

#[cfg(test)]
mod checking;
#[cfg(test)]
mod clauses;
#[cfg(test)]
mod patterns;
#[cfg(test)]
mod solving;
