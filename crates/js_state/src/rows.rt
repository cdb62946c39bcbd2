//! Operators and tests of a run.

ghost use Rattle.std.specs.Prelude.{◌≡◌, ◌≤◌, ◌+◌, length, IfOk, MatchOption, Bool, List, ℕ};
ghost use Rattle.js_ast.specs.declared.operators.UnaryOp.TheVariants.{TypeOf};
ghost use Rattle.js_meaning.specs.Conversions.{is_text};
ghost use Rattle.js_meaning.specs.Operators.{branch_row, test_row, logical_row, binary_row, is_join, unary_row, step_row, old_number};
ghost use Rattle.js_meaning.specs.Objects.{is_callable as callable};
ghost use Rattle.js_meaning.specs.Parts.{apply, noted};
ghost use Rattle.js_meaning.specs.Running.{giving, play as playing};
ghost use Rattle.term_table.specs.Fitting.{Fits, FitsOutcome};
ghost use Rattle.term_table.specs.Prices.{CostsAtMost};
ghost use Rattle.term_table.specs.Walking.{Shows};
ghost use Rattle.js_ops.specs.Contents.{IsTold};
ghost use Rattle.js_meaning.specs.Values.{Object as SpecObject, object as an_object};
ghost use Rattle.term_table.specs.Views.{View, at as seen_at, plain_value};
ghost use Rattle.js_state.specs.Fitting.{InCompletion, IsPlayed, ErrStops, IsOr};
ghost use Rattle.js_state.specs.Playing.{Does, Level, Still, Asked, told};
ghost use Rattle.js_state.specs.Spending.{SpendsAtMost};
ghost use Rattle.js_state.specs.Seen.{place_of, Agreeing};
ghost use Rattle.term_table.specs.declared.shadow.Plain.TheVariants.{Object as AnObject};

use crate::completion::Completion;
use crate::playing::too_many;
use crate::properties::Kind;
use crate::state::State;
use js_ast::{BinaryOp, LogicalOp, StepOp, UnaryOp};
use js_ops::{is_nullish, to_boolean};
use js_units::NoMemory;
use path_core::{Event, PickKind};
use term_table::{Choice, Outcome, Plain, Shadow};

fn is_text(shadow: &Shadow) -> bool
    ensures { (view : View) → result ≡ is_text (seen_at view shadow.now) }
{
    matches!(shadow.plain, Plain::Text(_))
}

fn joins(op: BinaryOp, a: &Shadow, b: &Shadow) -> bool
    ensures { (view : View) → result ≡ is_join op (seen_at view a.now) (seen_at view b.now) }
{
    match op {
        BinaryOp::Add => is_text(a) || is_text(b),
        _ => false,
    }
}

/// The object whose class alone tells what `typeof` gives.
fn told_by_class(op: UnaryOp, value: &Plain) -> Option<u32>
    ensures { MatchOption result (op ≡ TypeOf → IsTold value.now) (λ id. (op ≡ TypeOf) × (value.now ≡ AnObject id)) }
{
    match op {
        UnaryOp::TypeOf => match value {
            Plain::Object(id) => Some(*id),
            _ => None,
        },
        _ => None,
    }
}

/// The outcome of the left side of `&&`, `||` and `??`.
#[tactic(auto, unfolding(js_meaning::specs::Operators::logical_row, js_meaning::specs::Operators::test_row))]
fn decides(op: LogicalOp, value: &Plain) -> bool
    ensures { (site : ℕ) → logical_row op site (plain_value value.now) ≡ branch_row site result }
{
    match op {
        LogicalOp::And => to_boolean(value),
        LogicalOp::Or => to_boolean(value),
        LogicalOp::Coalesce => is_nullish(value),
    }
}

impl<'a> State<'a> {
    /// Counts a join of strings, which `+` makes where either side is one.
    fn note_join(&mut self, op: BinaryOp, a: &Shadow, b: &Shadow)
        ensures gives { (view : View) → place_of view self.new ≡ noted (is_join op (seen_at view a.now) (seen_at view b.now)) (place_of view self.old) }
        ensures still { Still self.old self.new }
    {
        if joins(op, a, b) {
            self.joins = self.joins.saturating_add(1);
        }
    }

    fn ask_binary(
        &mut self,
        site: u32,
        op: BinaryOp,
        a: &Shadow,
        b: &Shadow,
    ) -> Result<Outcome, NoMemory>
        requires a { Fits self.old.table a.now }
        requires b { Fits self.old.table b.now }
        ensures asked { IfOk result (λ o. Asked self.old self.new) }
        ensures shows { IfOk result (λ o. (view : View) → Agreeing view self.new → Shows view site o (binary_row op site (seen_at view a.now) (seen_at view b.now))) }
        ensures fits { IfOk result (λ o. FitsOutcome self.new.table o) }
        ensures price { IfOk result (λ o. CostsAtMost 15 self.old.table self.new.table o) }
    {
        let outcome = js_ops::binary(self.alloc, &mut self.table, site, op, a, b)?;
        Ok(outcome)
    }

    /// An operator on the values of both its sides (ECMA-262, section 13.15.3).
    pub fn operate(
        &mut self,
        site: u32,
        op: BinaryOp,
        a: &Shadow,
        b: &Shadow,
    ) -> Result<Completion, NoMemory>
        requires a { Fits self.old.table a.now }
        requires b { Fits self.old.table b.now }
        ensures does { IfOk result (λ completion. Does self.old self.new (λ view. apply op site (seen_at view a.now) (seen_at view b.now) (place_of view self.old)) completion) }
        ensures level { IfOk result (λ completion. Level self.old self.new) }
        ensures fits { IfOk result (λ completion. InCompletion (Fits self.new.table) completion) }
        ensures kind { IfOk result (λ completion. IsPlayed completion) }
        ensures price { IfOk result (λ completion. SpendsAtMost 15 self.old self.new) }
    {
        self.note_join(op, a, b);
        let outcome = self.ask_binary(site, op, a, b)?;
        let completion = self.play(site, outcome)?;
        Ok(completion)
    }

    fn ask_unary(&mut self, site: u32, op: UnaryOp, a: &Shadow) -> Result<Outcome, NoMemory>
        requires fits { Fits self.old.table a.now }
        requires told { op ≡ TypeOf → IsTold a.now.plain }
        ensures asked { IfOk result (λ o. Asked self.old self.new) }
        ensures shows { IfOk result (λ o. (objects : List SpecObject) (view : View) → Agreeing view self.new → Shows view site o (unary_row op site (seen_at view a.now) objects)) }
        ensures fits { IfOk result (λ o. FitsOutcome self.new.table o) }
        ensures price { IfOk result (λ o. CostsAtMost 8 self.old.table self.new.table o) }
    {
        let outcome = js_ops::unary(self.alloc, &mut self.table, site, op, a)?;
        Ok(outcome)
    }

    fn ask_step(&mut self, site: u32, op: StepOp, a: &Shadow) -> Result<Outcome, NoMemory>
        requires { Fits self.old.table a.now }
        ensures asked { IfOk result (λ o. Asked self.old self.new) }
        ensures shows { IfOk result (λ o. (view : View) → Agreeing view self.new → Shows view site o (step_row op site (seen_at view a.now))) }
        ensures fits { IfOk result (λ o. FitsOutcome self.new.table o) }
        ensures price { IfOk result (λ o. CostsAtMost 9 self.old.table self.new.table o) }
    {
        let outcome = js_ops::step(self.alloc, &mut self.table, site, op, a)?;
        Ok(outcome)
    }

    /// The new value of `++` and `--` (section 13.4).
    pub fn step(&mut self, site: u32, op: StepOp, a: &Shadow) -> Result<Completion, NoMemory>
        requires { Fits self.old.table a.now }
        ensures does { IfOk result (λ completion. Does self.old self.new (λ view. playing (step_row op site (seen_at view a.now)) (place_of view self.old)) completion) }
        ensures level { IfOk result (λ completion. Level self.old self.new) }
        ensures fits { IfOk result (λ completion. InCompletion (Fits self.new.table) completion) }
        ensures kind { IfOk result (λ completion. IsPlayed completion) }
        ensures price { IfOk result (λ completion. SpendsAtMost 9 self.old self.new) }
    {
        let outcome = self.ask_step(site, op, a)?;
        let completion = self.play(site, outcome)?;
        Ok(completion)
    }

    /// The old number of `++` and `--`, which is their value where they stand behind their target.
    pub fn old_number(&self, value: &Shadow) -> Shadow
        requires { Fits self.now.table value.now }
        ensures value { (view : View) → seen_at view result ≡ old_number (seen_at view value.now) }
        ensures fits { Fits self.now.table result }
    {
        Shadow {
            plain: js_ops::old_number(&value.plain),
            term: None,
        }
    }

    /// Makes the event of a test.
    fn branch(&mut self, site: u32, holds: bool) -> Result<Result<bool, Completion>, NoMemory>
        ensures does { IfOk result (λ o. Does self.old self.new (λ view. playing (branch_row site holds) (place_of view self.old)) (told o)) }
        ensures level { IfOk result (λ o. Level self.old self.new) }
        ensures table { IfOk result (λ o. self.new.table ≡ self.old.table) }
        ensures stops { IfOk result (λ o. ErrStops o) }
        ensures price { IfOk result (λ o. SpendsAtMost 7 self.old self.new) }
        ensures tells { IfOk result (λ o. IsOr holds o) }
    {
        let event = Event::Pick {
            site,
            kind: PickKind::Branch,
            out: u32::from(holds),
            ways: 2,
        };
        let choice = Choice::Flag(self.table.flag(holds));
        match self.take_event(event, choice)? {
            None => Ok(Ok(holds)),
            Some(at) => Ok(Err(too_many(at))),
        }
    }

    /// The test of a statement or of `?:`, which makes its event.
    pub fn test(&mut self, site: u32, value: &Shadow) -> Result<Result<bool, Completion>, NoMemory>
        requires { Fits self.old.table value.now }
        ensures does { IfOk result (λ o. Does self.old self.new (λ view. playing (test_row site (seen_at view value.now)) (place_of view self.old)) (told o)) }
        ensures level { IfOk result (λ o. Level self.old self.new) }
        ensures table { IfOk result (λ o. self.new.table ≡ self.old.table) }
        ensures stops { IfOk result (λ o. ErrStops o) }
        ensures price { IfOk result (λ o. SpendsAtMost 7 self.old self.new) }
    {
        let holds = to_boolean(&value.plain);
        let told = self.branch(site, holds)?;
        Ok(told)
    }

    /// The left side of `&&`, `||` and `??`, which makes its event (section 13.13.1).
    pub fn decide(
        &mut self,
        site: u32,
        op: LogicalOp,
        value: &Shadow,
    ) -> Result<Result<bool, Completion>, NoMemory>
        requires { Fits self.old.table value.now }
        ensures does { IfOk result (λ o. Does self.old self.new (λ view. playing (logical_row op site (seen_at view value.now)) (place_of view self.old)) (told o)) }
        ensures level { IfOk result (λ o. Level self.old self.new) }
        ensures table { IfOk result (λ o. self.new.table ≡ self.old.table) }
        ensures stops { IfOk result (λ o. ErrStops o) }
        ensures price { IfOk result (λ o. SpendsAtMost 7 self.old self.new) }
    {
        let holds = decides(op, &value.plain);
        let told = self.branch(site, holds)?;
        Ok(told)
    }

    fn is_callable(&self, id: u32) -> bool
        ensures { (view : View) → result ≡ callable (an_object id) (place_of view self.now).objects }
    {
        matches!(self.kind(id), Kind::Function(_))
    }

    /// The kind of an object, as a text (section 13.5.3).
    #[tactic(auto, unfolding(js_meaning::specs::Operators::unary_row))]
    fn type_of(&self, id: u32) -> Result<Shadow, NoMemory>
        ensures value { IfOk result (λ s. (view : View) (site : ℕ) → giving (seen_at view s) ≡ unary_row TypeOf site (an_object id) (place_of view self.now).objects) }
        ensures fits { IfOk result (λ s. Fits self.now.table s) }
    {
        if self.is_callable(id) {
            let text = self.constant("function")?;
            return Ok(text);
        }
        let text = self.constant("object")?;
        Ok(text)
    }

    /// An operator before a value (section 13.5).
    pub fn unary(&mut self, site: u32, op: UnaryOp, a: &Shadow) -> Result<Completion, NoMemory>
        requires { Fits self.old.table a.now }
        ensures does { IfOk result (λ completion. Does self.old self.new (λ view. playing (unary_row op site (seen_at view a.now) (place_of view self.old).objects) (place_of view self.old)) completion) }
        ensures level { IfOk result (λ completion. Level self.old self.new) }
        ensures fits { IfOk result (λ completion. InCompletion (Fits self.new.table) completion) }
        ensures kind { IfOk result (λ completion. IsPlayed completion) }
        ensures price { IfOk result (λ completion. SpendsAtMost 8 self.old self.new) }
    {
        if let Some(id) = told_by_class(op, &a.plain) {
            let value = self.type_of(id)?;
            return Ok(Completion::Value(value));
        }
        let outcome = self.ask_unary(site, op, a)?;
        let completion = self.play(site, outcome)?;
        Ok(completion)
    }
}
