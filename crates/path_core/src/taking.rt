//! Which paths take a query.

ghost use Rattle.std.specs.Prelude.{◌≡◌, ◌↔◌, IsTrue, Contains};
ghost use Rattle.path_core.specs.declared.path.Child.TheVariants as children;
ghost use Rattle.path_core.specs.Taking.{Takes};

use crate::equality::{is_same_end, is_same_event, rest_behind};
use crate::path::{Child, End, Event, Path};
use crate::query::Query;

fn is_event(child: &Child, event: &Event) -> bool
    ensures { IsTrue result ↔ (child.now ≡ children.Event event.now) }
{
    match child {
        Child::Event(own) => is_same_event(own, event),
        Child::End(_) => false,
    }
}

fn is_end(child: &Child, end: &End) -> bool
    ensures { IsTrue result ↔ (child.now ≡ children.End end.now) }
{
    match child {
        Child::End(own) => is_same_end(*own, *end),
        Child::Event(_) => false,
    }
}

fn has_event(among: &[Child], event: &Event) -> bool
    ensures { IsTrue result ↔ Contains among.now (children.Event event.now) }
{
    let mut left = among;
    while let [first, rest @ ..] = left {
        if is_event(first, event) {
            return true;
        }
        left = rest;
    }
    false
}

fn has_end(among: &[Child], end: &End) -> bool
    ensures { IsTrue result ↔ Contains among.now (children.End end.now) }
{
    let mut left = among;
    while let [first, rest @ ..] = left {
        if is_end(first, end) {
            return true;
        }
        left = rest;
    }
    false
}

impl Query {
    /// Whether the prefix is a proper one of the path, and what follows it there is no child. Takes
    /// no memory.
    pub fn takes(&self, path: &Path) -> bool
        ensures { IsTrue result ↔ Takes self.now path.now }
    {
        match rest_behind(self.prefix.as_slice(), path.events.as_slice()) {
            Some([next, ..]) => !has_event(self.children.as_slice(), next),
            Some([]) => !has_end(self.children.as_slice(), &path.end),
            None => false,
        }
    }
}
