//! The state of a run: its scopes, bindings and objects, what it has spent of its budgets, and what it has shown.
#![tactic(auto)]

mod budgets;
mod builtins;
mod cells;
mod closure;
mod completion;
mod held;
mod objects;
mod paths;
mod playing;
mod properties;
mod reading;
mod results;
mod rows;
mod shadows;
mod state;
mod writing;

pub use budgets::cut;
pub use builtins::{Builtin, Method, Static, is_error};
pub use closure::{Closure, Code, Scope};
pub use completion::{Completion, Reference};
pub use held::{Bound, RunMove, Supplied};
pub use shadows::{UNDEFINED, object, share};
pub use state::State;
