//! Bounds, inputs, paths and queries cross threads. Nothing runs here: that the check takes these functions is what they are for.

use crate::bounds::Bounds;
use crate::path::{Input, Path};
use crate::query::Query;

fn crosses<T: Send + Sync>(_value: &T) {}

fn all_cross(bounds: &Bounds, input: &Input, path: &Path, query: &Query) {
    crosses(bounds);
    crosses(input);
    crosses(path);
    crosses(query);
}
