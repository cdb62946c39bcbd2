//! Tables of scripts with their paths on given inputs. What is told of each comes from ECMA-262 and from the rules of the
//! profile, by hand.
#![tactic(auto)]

#[cfg(test)]
mod limits;
#[cfg(test)]
mod rows;
#[cfg(test)]
mod running;
#[cfg(test)]
mod tables;
