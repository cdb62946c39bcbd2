//! Tables of reports, whole and damaged.
#![tactic(auto)]

#[cfg(test)]
mod damages;
#[cfg(test)]
mod reports;
