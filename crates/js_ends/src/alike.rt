//! Two inputs pass the same guards as long as their paths have the same events, until one ends at one that the other passes.

ghost use Rattle.std.specs.Prelude.{ℕ, ◌≤◌, List, ◌≡◌, ◌∷◌, ◌++◌, Option, None};
ghost use Rattle.js_ast.specs.declared.statement.Script.{Script as SpecScript};
ghost use Rattle.js_parser.specs.Spelling.{Spells};
ghost use Rattle.path_core.specs.declared.bounds.Bounds.{Bounds as SpecBounds};
ghost use Rattle.path_core.specs.declared.path.End.{End as SpecEnd};
ghost use Rattle.path_core.specs.declared.path.InputValue.{InputValue as SpecInputValue};
ghost use Rattle.js_meaning.specs.Values.{Answers};
ghost use Rattle.js_meaning.specs.Meaning.{most_ended};
ghost use Rattle.js_meaning.specs.Path.{run_of};
ghost use Rattle.js_meaning.specs.Running.{Item, passed, Outcome};
ghost use Rattle.term_table.specs.declared.term.TermId.{TermId as SpecTermId};
ghost use Rattle.term_table.specs.declared.moves.Move.{Move as SpecMove};
ghost use Rattle.term_table.specs.Views.{View};
ghost use Rattle.js_ends.specs.Ends.{AreApart};
ghost use Rattle.js_ends.specs.Alike.{Guarded, guarded_path, Leads, LeadsOutcome, AreAlike, EndsAsWell, IsNeverPassed, Tells};

/// One run's moves lead along its own path and along another input's; what leads along an outcome leads along its path.
pub fn paths_alike()
    ensures alike { (view : View) (moves : List SpecMove) (failed : Option SpecTermId) (end : SpecEnd) (w : Guarded) (u : Guarded) → Leads None moves failed end w → Leads view moves failed end u → AreAlike w u }
    ensures outcome { (view : View) (moves : List SpecMove) (failed : Option SpecTermId) (end : SpecEnd) (r : Outcome) → LeadsOutcome view moves failed end r → Leads view moves failed end (guarded_path r) }
{}

/// An end that no guard has, as that for want of room, is the path's own. An input that has made the same events ends behind
/// them as well, by that end or by the exit of a guard that the run passed there; and of a script that bytes spell, it
/// never passes a guard there whose exit is that end.
pub fn unguarded_ends()
    ensures follows { (view : View) (moves : List SpecMove) (end : SpecEnd) (w : Guarded) (u : Guarded) → Leads None moves None end w → Leads view moves None end u → EndsAsWell w u }
    ensures never_passed { (bytes : List ℕ) (script : SpecScript) (bounds : SpecBounds) (values : List SpecInputValue) (answers : Answers) (view : View) (moves : List SpecMove) (end : SpecEnd) (u : Guarded) → Spells bytes script → bounds.turns ≤ most_ended → LeadsOutcome None moves None end (run_of script bounds values answers) → Leads view moves None end u → IsNeverPassed (guarded_path (run_of script bounds values answers)) u }
{}

/// An input that passes the guard at which a run failed doesn't end, before its next event, as if it had failed there or at a
/// guard since the last event.
pub fn ends_tell()
    ensures tells { (before : List Item) (exit : SpecEnd) (behind : List Item) (end : SpecEnd) → AreApart (before ++ (passed exit ∷ behind)) end → Tells before exit behind end }
{}
