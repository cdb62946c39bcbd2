//! Rows are taken up by the run.

ghost use Rattle.std.specs.Prelude.{◌≡◌, ◌≤◌, ◌+◌, [], ◌∷◌, ◌++◌, IfOk, OnOk, Bool};
ghost use Rattle.path_core.specs.declared.path.End.TheVariants.{Cut};
ghost use Rattle.path_core.specs.declared.path.Budget.TheVariants.{Events};
ghost use Rattle.js_meaning.specs.Running.{Row, gives, raises, play as playing, site_of_event};
ghost use Rattle.term_table.specs.Fitting.{Fits, FitsOutcome};
ghost use Rattle.term_table.specs.Prices.{moves_price, failed_price, outcome_price};
ghost use Rattle.term_table.specs.Views.{View, at as seen_at};
ghost use Rattle.term_table.specs.Walking.{Walk, EndsRow, Stopped, Shows};
ghost use Rattle.js_state.specs.Fitting.{InCompletion, IsPlayed};
ghost use Rattle.js_state.specs.Playing.{Does, TakenUp, Level, failed_kept};
ghost use Rattle.js_state.specs.Spending.{SpendsAtMost};
ghost use Rattle.js_state.specs.Seen.{place_of, Agreeing};
ghost use Rattle.js_state.specs.declared.completion.Completion.TheVariants.{Stop};
ghost use Rattle.term_table.specs.declared.moves.Move.TheVariants.{Event as AnEvent};

use crate::budgets::cut;
use crate::completion::Completion;
use crate::held::RunMove;
use crate::state::State;
use js_units::NoMemory;
use path_core::{Budget, End, ErrorName, Event};
use term_table::{Choice, Move, Moves, Outcome, Shadow, TermId};

const EVENT_LIMIT: u32 = 4096;

fn site_of(event: &Event) -> u32
    ensures { result ≡ site_of_event event.now }
{
    match event {
        Event::Pick { site, .. } => *site,
        Event::Value { site, .. } => *site,
    }
}

pub(crate) fn too_many(site: u32) -> Completion
    ensures { result ≡ Stop (Cut site Events) }
{
    cut(site, Budget::Events)
}

impl<'a> State<'a> {
    /// Keeps a guard that failed, in a run that keeps all its moves.
    fn fail(&mut self, term: TermId, exit: End) -> Result<(), NoMemory>
        ensures { OnOk result (self.new ≡ record self.old { moves = self.old.moves ++ failed_kept self.old.keeps term exit }) }
    {
        if self.keeps {
            self.moves.push(RunMove::Failed { term, exit })?;
        }
        Ok(())
    }

    /// Makes an event where one is left: at most 4,096. Tells its site where it is too many.
    pub(crate) fn take_event(
        &mut self,
        event: Event,
        choice: Choice,
    ) -> Result<Option<u32>, NoMemory>
        ensures { IfOk result (λ cut. TakenUp self.old self.new (AnEvent event choice ∷ []) cut) }
    {
        if self.events >= EVENT_LIMIT {
            return Ok(Some(site_of(&event)));
        }
        self.events += 1;
        self.moves.push(RunMove::Event { event, choice })?;
        Ok(None)
    }

    /// Takes up moves, as long as events are left: at most 4,096. Tells the site of the first event that is too many.
    fn take_up(&mut self, moves: Moves) -> Result<Option<u32>, NoMemory>
        ensures { IfOk result (λ cut. TakenUp self.old self.new moves cut) }
    {
        let mut left = moves;
        while let Some(next) = left.take() {
            match next {
                Move::Guard { term, exit } => {
                    if self.keeps {
                        let exit = self.stamped(exit);
                        self.moves.push(RunMove::Guard { term, exit })?;
                    }
                }
                Move::Event { event, choice } => {
                    if self.events >= EVENT_LIMIT {
                        return Ok(Some(site_of(&event)));
                    }
                    self.events += 1;
                    self.moves.push(RunMove::Event { event, choice })?;
                }
            }
        }
        Ok(None)
    }

    fn play_value(&mut self, moves: Moves, value: Shadow) -> Result<Completion, NoMemory>
        requires { Fits self.old.table value }
        ensures does { (row : View → Row) → ((view : View) → Agreeing view self.old → Walk EndsRow view moves (row view) (λ w. w ≡ ([], gives (seen_at view value)))) → IfOk result (λ completion. Does self.old self.new (λ view. playing (row view) (place_of view self.old)) completion) }
        ensures level { IfOk result (λ completion. Level self.old self.new) }
        ensures table { IfOk result (λ completion. self.new.table ≡ self.old.table) }
        ensures fits { IfOk result (λ completion. InCompletion (Fits self.new.table) completion) }
        ensures kind { IfOk result (λ completion. IsPlayed completion) }
        ensures price { IfOk result (λ completion. SpendsAtMost (moves_price self.old.table moves) self.old self.new) }
    {
        match self.take_up(moves)? {
            None => Ok(Completion::Value(value)),
            Some(site) => {
                drop(value);
                Ok(too_many(site))
            }
        }
    }

    fn play_stop(
        &mut self,
        moves: Moves,
        failed: Option<TermId>,
        exit: End,
    ) -> Result<Completion, NoMemory>
        ensures does { (row : View → Row) → ((view : View) → Agreeing view self.old → Walk EndsRow view moves (row view) (λ w. Stopped view failed exit w)) → IfOk result (λ completion. Does self.old self.new (λ view. playing (row view) (place_of view self.old)) completion) }
        ensures level { IfOk result (λ completion. Level self.old self.new) }
        ensures table { IfOk result (λ completion. self.new.table ≡ self.old.table) }
        ensures fits { IfOk result (λ completion. InCompletion (Fits self.new.table) completion) }
        ensures kind { IfOk result (λ completion. IsPlayed completion) }
        ensures price { IfOk result (λ completion. SpendsAtMost (moves_price self.old.table moves + failed_price self.old.table failed) self.old self.new) }
    {
        if let Some(site) = self.take_up(moves)? {
            return Ok(too_many(site));
        }
        let exit = self.stamped(exit);
        match failed {
            None => Ok(Completion::Stop(exit)),
            Some(term) => {
                self.fail(term, exit)?;
                Ok(Completion::Stop(exit))
            }
        }
    }

    fn play_raise(
        &mut self,
        site: u32,
        moves: Moves,
        error: ErrorName,
    ) -> Result<Completion, NoMemory>
        ensures does { (row : View → Row) → ((view : View) → Agreeing view self.old → Walk EndsRow view moves (row view) (λ w. w ≡ ([], raises site error))) → IfOk result (λ completion. Does self.old self.new (λ view. playing (row view) (place_of view self.old)) completion) }
        ensures level { IfOk result (λ completion. Level self.old self.new) }
        ensures table { IfOk result (λ completion. self.new.table ≡ self.old.table) }
        ensures fits { IfOk result (λ completion. InCompletion (Fits self.new.table) completion) }
        ensures kind { IfOk result (λ completion. IsPlayed completion) }
        ensures price { IfOk result (λ completion. SpendsAtMost (moves_price self.old.table moves) self.old self.new) }
    {
        match self.take_up(moves)? {
            None => {
                let completion = self.throw_error(site, error)?;
                Ok(completion)
            }
            Some(at) => Ok(too_many(at)),
        }
    }

    /// Takes up the answer of a row, which was asked for at a site.
    pub(crate) fn play(&mut self, site: u32, outcome: Outcome) -> Result<Completion, NoMemory>
        requires { FitsOutcome self.old.table outcome }
        ensures does { (row : View → Row) → ((view : View) → Agreeing view self.old → Shows view site outcome (row view)) → IfOk result (λ completion. Does self.old self.new (λ view. playing (row view) (place_of view self.old)) completion) }
        ensures level { IfOk result (λ completion. Level self.old self.new) }
        ensures table { IfOk result (λ completion. self.new.table ≡ self.old.table) }
        ensures fits { IfOk result (λ completion. InCompletion (Fits self.new.table) completion) }
        ensures kind { IfOk result (λ completion. IsPlayed completion) }
        ensures price { IfOk result (λ completion. SpendsAtMost (outcome_price self.old.table outcome) self.old self.new) }
    {
        match outcome {
            Outcome::Value { moves, value } => {
                let completion = self.play_value(moves, value)?;
                Ok(completion)
            }
            Outcome::Stop {
                moves,
                failed,
                exit,
            } => {
                let completion = self.play_stop(moves, failed, exit)?;
                Ok(completion)
            }
            Outcome::Raise { moves, error } => {
                let completion = self.play_raise(site, moves, error)?;
                Ok(completion)
            }
        }
    }
}
