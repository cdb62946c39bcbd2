//! The path of a run: the events that it made, and its end.

ghost use Rattle.std.specs.Prelude.{◌≡◌, ◌≤◌, IfOk, length};
ghost use Rattle.js_meaning.specs.Path.{end_of};
ghost use Rattle.term_table.specs.Fitting.{Fits};
ghost use Rattle.term_table.specs.Views.{View};
ghost use Rattle.js_state.specs.Fitting.{InCompletion};
ghost use Rattle.js_state.specs.Playing.{events_made};
ghost use Rattle.js_state.specs.Seen.{place_of, completion_at};

use crate::completion::Completion;
use crate::held::RunMove;
use crate::state::State;
use js_units::NoMemory;
use path_core::{End, Event};
use sqlite_items::Items;
use std::alloc::Global;

fn copied(event: &Event) -> Result<Event, NoMemory>
    ensures { IfOk result (λ copy. copy ≡ event.now) }
{
    match event {
        Event::Pick {
            site,
            kind,
            out,
            ways,
        } => Ok(Event::Pick {
            site: *site,
            kind: *kind,
            out: *out,
            ways: *ways,
        }),
        Event::Value { site, text } => {
            let text = text.copy()?;
            Ok(Event::Value { site: *site, text })
        }
    }
}

fn events_among(alloc: Global, moves: &[RunMove]) -> Result<Items<Event>, NoMemory>
    ensures { IfOk result (λ events. events ≡ events_made moves.now) }
{
    let mut events = Items::new(alloc);
    let mut left = moves;
    while let [first, rest @ ..] = left {
        if let RunMove::Event { event, choice: _ } = first {
            let event = copied(event)?;
            events.push(event)?;
        }
        left = rest;
    }
    Ok(events)
}

impl<'a> State<'a> {
    /// The events that the run has made, in their order: at most 4,096.
    pub fn events(&self) -> Result<Items<Event>, NoMemory>
        ensures made { IfOk result (λ events. events ≡ events_made self.now.moves) }
        ensures few { IfOk result (λ events. length events ≤ 4096) }
    {
        events_among(self.alloc, self.moves.as_slice())
    }

    /// The end of a run whose script has ended so (ECMA-262, section 16.1.6): by a throw that nothing caught, by a stop, or
    /// at its end.
    pub fn end(&self, completion: &Completion) -> End
        requires { InCompletion (Fits self.now.table) completion.now }
        ensures { (view : View) → result ≡ end_of (place_of view self.now) (completion_at view completion.now) }
    {
        match completion {
            Completion::Value(_) => End::Done,
            Completion::Refers(_) => End::Done,
            Completion::Normal => End::Done,
            Completion::Break => End::Done,
            Completion::Continue => End::Done,
            Completion::Return(_) => End::Done,
            Completion::Throw { site, value } => End::Threw {
                site: *site,
                what: self.thrown(value),
            },
            Completion::Stop(end) => *end,
        }
    }
}
