//! Rows and tables of the language: units, tokens and scripts. The wanted answers come from ECMA-262 and from `node`.
#![tactic(auto)]

#[cfg(test)]
mod heap;
#[cfg(test)]
mod operators;
#[cfg(test)]
mod scripts;
#[cfg(test)]
mod tokens;
#[cfg(test)]
mod units;
