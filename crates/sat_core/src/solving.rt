//! The search for a model or a derivation.

ghost use Rattle.std.specs.Prelude.{◌≡◌, ◌≤◌, ◌^◌, length, IfOk};
ghost use Rattle.cnf_core.specs.Literals.{Solves};
ghost use Rattle.cnf_core.specs.Derivations.{IsWithin, StepsWithin, Refutes, AllValid, AllFresh};
ghost use Rattle.sat_core.specs.Answers.{IfModel, IfRefuted, IfSpent, IsDecided, EndsEmpty};
ghost use Rattle.sat_core.specs.Values.{value_in};

use crate::searching::{Ending, run};
use crate::trail::Trail;
use cnf_core::{Cnf, Derivation};
use js_units::NoMemory;
use sqlite_items::Items;
use std::alloc::Global;

/// What `solve` finds.
#[derive(Drop)]
pub enum Answer {
    /// The value of each variable, which make every clause true.
    Model(Items<bool>),
    /// Steps, the last of which is the empty clause.
    Refuted(Derivation),
    /// As many steps as the budget, each with a new clause.
    Spent(Derivation),
}

fn crosses<T: Send + Sync>(_: &T) {}

/// Clauses, derivations and answers may be handed to other threads, and read by several at once.
fn all_cross(cnf: &Cnf, derivation: &Derivation, answer: &Answer) {
    crosses(cnf);
    crosses(derivation);
    crosses(answer);
}

/// Values that make every clause true, or a derivation of the empty clause, or as many valid steps
/// as the budget, none of which is empty or contains an earlier clause.
///
/// The budget is never spent where it is at least 3 to the power of the number of variables. Beside
/// the clauses and steps the memory is linear in their number and in that of the variables.
pub fn solve(alloc: Global, cnf: &Cnf, budget: u64) -> Result<Answer, NoMemory>
    requires budget { 1 ≤ budget }
    requires cnf { IsWithin cnf.now }
    ensures model_values { IfOk result (λ answer. IfModel answer (λ values. length values ≡ cnf.now.variables)) }
    ensures model_true { IfOk result (λ answer. IfModel answer (λ values. Solves (value_in values) cnf.now.clauses)) }
    ensures refuted { IfOk result (λ answer. IfRefuted answer (Refutes cnf.now)) }
    ensures refuted_last { IfOk result (λ answer. IfRefuted answer EndsEmpty) }
    ensures refuted_most { IfOk result (λ answer. IfRefuted answer (λ derivation. length derivation.steps ≤ budget)) }
    ensures refuted_within { IfOk result (λ answer.
        IfRefuted answer (λ derivation. StepsWithin cnf.now.variables derivation.steps)) }
    ensures spent_valid { IfOk result (λ answer. IfSpent answer (AllValid cnf.now)) }
    ensures spent_fresh { IfOk result (λ answer. IfSpent answer (AllFresh cnf.now)) }
    ensures spent_all { IfOk result (λ answer. IfSpent answer (λ derivation. length derivation.steps ≡ budget)) }
    ensures spent_within { IfOk result (λ answer.
        IfSpent answer (λ derivation. StepsWithin cnf.now.variables derivation.steps)) }
    ensures decided { 3 ^ cnf.now.variables ≤ budget → IfOk result IsDecided }
{
    let mut trail = Trail::new(alloc, cnf.variables)?;
    let mut steps = Items::new(alloc);
    match run(alloc, cnf, budget, &mut trail, &mut steps) {
        Ok(Ending::Total) => {
            drop(steps);
            let values = trail.model(alloc);
            drop(trail);
            Ok(Answer::Model(values?))
        }
        Ok(Ending::Refuted) => {
            drop(trail);
            Ok(Answer::Refuted(Derivation { steps }))
        }
        Ok(Ending::Spent) => {
            drop(trail);
            Ok(Answer::Spent(Derivation { steps }))
        }
        Err(no_memory) => {
            drop(trail);
            drop(steps);
            Err(no_memory)
        }
    }
}
