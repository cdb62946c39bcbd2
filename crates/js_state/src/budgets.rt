//! Budgets, and the ends that they and the profile make.

ghost use Rattle.std.specs.Prelude.{◌≡◌, ◌≤◌, ◌<◌, ◌+◌, ◌-◌, ℕ, suc, true, false, if◌then◌else◌};
ghost use Rattle.path_core.specs.declared.path.End.TheVariants.{Cut};
ghost use Rattle.path_core.specs.declared.path.Budget.TheVariants.{Nodes, Turns};
ghost use Rattle.term_table.specs.Views.{View};
ghost use Rattle.js_meaning.specs.Values.{Place};
ghost use Rattle.js_meaning.specs.Running.{Outcome, done, stops, count as counting, turn as turning, stamp as stamping, stamped, leaving};
ghost use Rattle.js_meaning.specs.Meaning.{end_activation as one_more};
ghost use Rattle.js_state.specs.Playing.{Quiet, Still};
ghost use Rattle.js_state.specs.Seen.{place_of, completion_at};
ghost use Rattle.js_state.specs.declared.completion.Completion.TheVariants.{Stop};

use crate::completion::Completion;
use crate::state::State;
use path_core::{Budget, End, Why};

const NODE_LIMIT: u32 = 50_000_000;

/// The run stops at a site, since a budget is spent.
#[inline(always)]
pub fn cut(site: u32, what: Budget) -> Completion
    ensures { result ≡ Stop (Cut site what) }
{
    Completion::Stop(End::Cut { site, what })
}

impl<'a> State<'a> {
    /// Counts one node, or says that there are too many: at most 50,000,000.
    #[inline(always)]
    #[tactic(auto, using(std::proofs::lemmas::Bool::Decides::nat_tests), unfolding(js_meaning::specs::Running::count))]
    pub fn count(&mut self) -> bool
        ensures goes { (view : View) (site : ℕ) (go : Place → Outcome) → counting site (place_of view self.old) go ≡ (if result then go (place_of view self.new) else done (place_of view self.new) (stops (Cut site Nodes))) }
        ensures quiet { Quiet self.old self.new }
        ensures turns { self.new.turns ≡ self.old.turns }
        ensures counted { result ≡ true → (self.new.nodes ≡ self.old.nodes + 1) × (self.old.nodes < 50000000) }
        ensures full { result ≡ false → self.new.nodes ≡ self.old.nodes }
    {
        if self.nodes < NODE_LIMIT {
            self.nodes += 1;
            true
        } else {
            false
        }
    }

    /// Takes a turn, if one is left.
    #[tactic(auto, using(std::proofs::lemmas::Bool::Decides::nat_tests), unfolding(js_meaning::specs::Running::turn))]
    pub fn take_turn(&mut self) -> bool
        ensures goes { (view : View) (site : ℕ) (go : Place → Outcome) → turning site (place_of view self.old) go ≡ (if result then go (place_of view self.new) else done (place_of view self.new) (stops (Cut site Turns))) }
        ensures quiet { Quiet self.old self.new }
        ensures taken { result ≡ true → suc self.new.turns ≡ self.old.turns }
        ensures none { result ≡ false → self.new.turns ≡ self.old.turns }
        ensures nodes { self.new.nodes ≡ self.old.nodes }
    {
        if self.turns > 0 {
            self.turns -= 1;
            self.ended = 0;
            true
        } else {
            false
        }
    }

    /// An activation of a function has ended.
    pub fn end_activation(&mut self)
        ensures gives { (view : View) → place_of view self.new ≡ one_more (place_of view self.old) }
        ensures still { Still self.old self.new }
    {
        self.ended = self.ended.saturating_add(1);
    }

    /// A `left` end has the turns that were taken, and the activations that ended since the last.
    pub(crate) fn stamped(&self, end: End) -> End
        ensures { result ≡ stamping (self.now.allowed - self.now.turns) self.now.ended end }
    {
        match end {
            End::Left { site, why, .. } => End::Left {
                site,
                why,
                turns: self.allowed - self.turns,
                ended: self.ended,
            },
            _ => end,
        }
    }

    /// The run leaves the profile.
    pub fn left(&self, site: u32, why: Why) -> Completion
        ensures gives { (view : View) → completion_at view result ≡ stops (stamped (place_of view self.now) (leaving site why)) }
        ensures stops { result ≡ Stop (stamping (self.now.allowed - self.now.turns) self.now.ended (leaving site why)) }
    {
        let end = End::Left {
            site,
            why,
            turns: 0,
            ended: 0,
        };
        Completion::Stop(self.stamped(end))
    }
}
