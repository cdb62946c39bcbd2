//! Items at places that may be out of range.

ghost use Rattle.std.specs.Prelude.{◌≡◌, ◌≤◌, ◌<◌, length, slice_get, slice_set, unwrap_or};

use sqlite_items::Items;

/// The item at this place, or `none`.
pub fn get<T: Copy>(items: &Items<T>, at: usize, none: T) -> T
    ensures { result ≡ unwrap_or (slice_get items.now at) none }
{
    match items.get(at) {
        Some(item) => *item,
        None => none,
    }
}

/// Writes an item, where there is such a place.
pub fn put<T: Copy + Drop>(items: &mut Items<T>, at: usize, item: T)
    ensures written { at < length items.old → items.new ≡ slice_set items.old at item }
    ensures same { length items.old ≤ at → items.new ≡ items.old }
    ensures long { length items.new ≡ length items.old }
{
    if at < items.len() {
        items.set(at, item);
    }
}
