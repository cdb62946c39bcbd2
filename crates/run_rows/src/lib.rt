//! Rows and tables of the top call, of bounds, and of what is outside.
#![tactic(auto)]

#[cfg(test)]
mod bounds;
#[cfg(test)]
mod calls;
#[cfg(test)]
mod outside;
