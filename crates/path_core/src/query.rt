//! Questions about the tree of paths.

use crate::path::{Child, Event};
use sqlite_items::Items;

/// Which input goes on behind the prefix in another way than by the children?
#[derive(Drop)]
pub struct Query {
    pub prefix: Items<Event>,
    pub children: Items<Child>,
}
