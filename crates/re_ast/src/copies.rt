//! Copies of patterns.

ghost use Rattle.std.specs.Prelude.{◌≡◌, IfOk};

use crate::patterns::{ClassSet, Node, Pattern};
use js_units::NoMemory;
use sqlite_items::{Boxed, Items};
use std::alloc::Global;

impl Pattern {
    /// An equal pattern. The call stack grows with the depth of the tree, by two calls a level.
    pub fn copy(&self, alloc: Global) -> Result<Pattern, NoMemory>
        ensures { IfOk result (λ made. made ≡ self.now) }
    {
        Ok(Pattern {
            node: copy_node(alloc, &self.node)?,
            groups: self.groups,
            flags: self.flags,
        })
    }
}

fn copy_class(alloc: Global, set: &ClassSet) -> Result<ClassSet, NoMemory>
    ensures { IfOk result (λ made. made ≡ set.now) }
{
    Ok(ClassSet {
        ranges: Items::from_slice(alloc, set.ranges.as_slice())?,
        negated: set.negated,
    })
}

#[cycle(copying)]
fn copy_all(alloc: Global, nodes: &[Node]) -> Result<Items<Node>, NoMemory>
    ensures { IfOk result (λ made. made ≡ nodes.now) }
{
    let mut made = Items::new(alloc);
    for node in nodes {
        made.push(copy_node(alloc, node)?)?;
    }
    Ok(made)
}

#[cycle(copying)]
fn copy_node(alloc: Global, node: &Node) -> Result<Node, NoMemory>
    ensures { IfOk result (λ made. made ≡ node.now) }
{
    match node {
        Node::Empty => Ok(Node::Empty),
        Node::Unit(unit) => Ok(Node::Unit(*unit)),
        Node::Dot => Ok(Node::Dot),
        Node::Class(set) => {
            let set = copy_class(alloc, set)?;
            Ok(Node::Class(set))
        }
        Node::LineStart => Ok(Node::LineStart),
        Node::LineEnd => Ok(Node::LineEnd),
        Node::Word => Ok(Node::Word),
        Node::NotWord => Ok(Node::NotWord),
        Node::Group { index, body } => {
            let inner = copy_node(alloc, body.get())?;
            let body = Boxed::new(alloc, inner)?;
            Ok(Node::Group {
                index: *index,
                body,
            })
        }
        Node::Back(index) => Ok(Node::Back(*index)),
        Node::Look { negative, body } => {
            let inner = copy_node(alloc, body.get())?;
            let body = Boxed::new(alloc, inner)?;
            Ok(Node::Look {
                negative: *negative,
                body,
            })
        }
        Node::Repeat {
            body,
            min,
            max,
            lazy,
            first,
            past,
        } => {
            let inner = copy_node(alloc, body.get())?;
            let body = Boxed::new(alloc, inner)?;
            Ok(Node::Repeat {
                body,
                min: *min,
                max: *max,
                lazy: *lazy,
                first: *first,
                past: *past,
            })
        }
        Node::Seq(parts) => {
            let parts = copy_all(alloc, parts.as_slice())?;
            Ok(Node::Seq(parts))
        }
        Node::Alt(parts) => {
            let parts = copy_all(alloc, parts.as_slice())?;
            Ok(Node::Alt(parts))
        }
    }
}
