//! Objects and cells of a run: properties in the order of their creation, items and bindings.
#![tactic(auto)]

mod class;
mod heap;
mod object;
mod own_keys;

pub use class::Class;
pub use heap::Heap;
pub use own_keys::array_index;
// A crate can name a heap in a contract only if the types of its fields are exported.
#[doc(hidden)]
pub use object::Object;
