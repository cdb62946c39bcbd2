//! The search itself: to decide, to make units true, and to learn from each conflict.

ghost use Rattle.std.specs.Prelude.{◌≡◌, ◌≤◌, ◌<◌, ◌+◌, ◌*◌, [], length, IfOk};
ghost use Rattle.cnf_core.specs.Derivations.{known_with, IsWithin};
ghost use Rattle.sat_core.specs.Trails.{is_false, unassigned};
ghost use Rattle.sat_core.specs.Rest.{IsConflict};
ghost use Rattle.sat_core.specs.States.{Stable};
ghost use Rattle.sat_core.specs.Cuts.{IsDecision, NoDecision};
ghost use Rattle.sat_core.specs.Starting.{Starting};
ghost use Rattle.sat_core.specs.Endings.{IsEnding};
ghost use Rattle.sat_core.specs.Searches.{Learns};

use crate::cutting::{Lesson, Resolvent, last_decision};
use crate::learning::refute;
use crate::propagating::propagate;
use crate::scores::Scores;
use crate::starting::set_up;
use crate::taking::take_up;
use crate::teaching::teach;
use crate::trail::Trail;
use crate::watching::Watches;
use cnf_core::{Cnf, ProofStep};
use js_units::NoMemory;
use sqlite_items::Items;
use std::alloc::Global;

/// Where a search ends.
#[derive(Clone, Copy)]
pub enum Ending {
    /// Each variable has a value, and each clause is at rest.
    Total,
    /// The last step is the empty clause.
    Refuted,
    /// The budget is spent.
    Spent,
}

/// Learns a step from a conflict, jumps back to where its clause has a unit, and makes that true.
/// Answers how many entries have been seen to.
fn learn(
    alloc: Global,
    cnf: &Cnf,
    watches: &mut Watches,
    trail: &mut Trail,
    scores: &mut Scores,
    resolvent: &mut Resolvent,
    steps: &mut Items<ProofStep>,
    start: usize,
    conflict: u64,
) -> Result<usize, NoMemory>
    requires long { length resolvent.old.marks ≡ cnf.now.variables }
    requires standing { Stable (known_with cnf.now steps.old) watches.old trail.old }
    requires same { trail.old.variables ≡ cnf.now.variables }
    requires conflict { IsConflict (known_with cnf.now steps.old) (is_false trail.old) conflict }
    requires within { start < length trail.old.entries }
    requires decision { IsDecision trail.old.entries start }
    requires last { NoDecision trail.old.entries (start + 1) (length trail.old.entries) }
    ensures learns { IfOk result (Learns cnf.now steps.old steps.new watches.new trail.new) }
    ensures long { length resolvent.new.marks ≡ length resolvent.old.marks }
{
    let first = trail.first();
    let known = steps.as_slice();
    let entries = trail.entries();
    let lesson = teach(
        alloc, cnf, known, resolvent, scores, entries, start, first, conflict,
    )?;
    scores.decay();
    trail.cut(scores, lesson.cut);
    let head = trail.len();
    take_up(watches, trail, lesson.step.clause.as_slice())?;
    let Lesson { step, cut: _ } = lesson;
    steps.push(step)?;
    Ok(head)
}

/// Decides and learns from each conflict, until there is none and nothing left to decide, or a step is
/// empty, or there are as many as the budget.
fn search(
    alloc: Global,
    cnf: &Cnf,
    budget: u64,
    watches: &mut Watches,
    trail: &mut Trail,
    scores: &mut Scores,
    resolvent: &mut Resolvent,
    steps: &mut Items<ProofStep>,
) -> Result<Ending, NoMemory>
    requires budget { 1 ≤ budget }
    requires long { length resolvent.old.marks ≡ cnf.now.variables }
    requires start { Starting cnf.now.clauses watches.old trail.old }
    requires same { trail.old.variables ≡ cnf.now.variables }
    requires steps { steps.old ≡ [] }
    ensures { IfOk result (IsEnding cnf.now budget trail.new steps.new) }
{
    let mut head = 0;
    loop {
        match propagate(alloc, cnf, steps.as_slice(), watches, trail, head)? {
            Some(conflict) => match last_decision(trail.entries()) {
                None => {
                    steps.push(refute(alloc, trail.entries(), conflict)?)?;
                    return Ok(Ending::Refuted);
                }
                Some(start) => {
                    head = learn(
                        alloc, cnf, watches, trail, scores, resolvent, steps, start, conflict,
                    )?;
                    if steps.len() as u64 == budget {
                        return Ok(Ending::Spent);
                    }
                }
            },
            None => match trail.pick(scores) {
                Some(lit) => {
                    head = trail.len();
                    trail.decide(lit)?;
                }
                None => return Ok(Ending::Total),
            },
        }
    }
}

/// Watches all clauses, and searches.
fn start(
    alloc: Global,
    cnf: &Cnf,
    budget: u64,
    watches: &mut Watches,
    trail: &mut Trail,
    scores: &mut Scores,
    resolvent: &mut Resolvent,
    steps: &mut Items<ProofStep>,
) -> Result<Ending, NoMemory>
    requires budget { 1 ≤ budget }
    requires long { length resolvent.old.marks ≡ cnf.now.variables }
    requires cnf { IsWithin cnf.now }
    requires trail { trail.old ≡ unassigned cnf.now.variables }
    requires pairs { watches.old.pairs ≡ [] }
    requires wide { length watches.old.lists ≡ 2 * cnf.now.variables + 1 }
    requires steps { steps.old ≡ [] }
    ensures { IfOk result (IsEnding cnf.now budget trail.new steps.new) }
{
    match set_up(cnf, watches, trail)? {
        Some(conflict) => {
            steps.push(refute(alloc, trail.entries(), conflict)?)?;
            Ok(Ending::Refuted)
        }
        None => search(alloc, cnf, budget, watches, trail, scores, resolvent, steps),
    }
}

/// The whole search.
pub fn run(
    alloc: Global,
    cnf: &Cnf,
    budget: u64,
    trail: &mut Trail,
    steps: &mut Items<ProofStep>,
) -> Result<Ending, NoMemory>
    requires budget { 1 ≤ budget }
    requires cnf { IsWithin cnf.now }
    requires trail { trail.old ≡ unassigned cnf.now.variables }
    requires steps { steps.old ≡ [] }
    ensures { IfOk result (IsEnding cnf.now budget trail.new steps.new) }
{
    let mut watches = Watches::new(alloc, cnf.variables)?;
    let mut scores = Scores::new(alloc, cnf.variables)?;
    let mut resolvent = Resolvent::new(alloc, cnf.variables)?;
    start(
        alloc,
        cnf,
        budget,
        &mut watches,
        trail,
        &mut scores,
        &mut resolvent,
        steps,
    )
}
