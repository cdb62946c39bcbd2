//! What scripts of the whole language mean. The crate holds definitions, in `specs/`, and examples that the check
//! computes, in `proofs/`; its functions are laws, with nothing to do.
#![tactic(auto)]

mod laws;

pub use laws::{
    conversions_apart, operators_apart, properties_apart, strings_ordered, tests_apart,
    writes_apart,
};
