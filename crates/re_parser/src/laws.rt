//! Laws of the definitions in `specs/`: each is the contract of a function that does nothing.

ghost use Rattle.std.specs.Prelude.{◌≡◌, ℕ, List};
ghost use Rattle.re_parser.specs.Laws.{IsReason};
ghost use Rattle.re_parser.specs.declared.refusal.PatternRefusal.{PatternRefusal};

/// A body has one refusal: of a syntax error, an escape that isn't listed, a tenth group and a
/// backreference to no group at most one, at one place, meets what the clauses `kinds` and `place` of
/// `parse_pattern` say.
#[tactic(auto, using(crate::proofs::Exclusive::one_reason))]
pub fn one_reason()
    ensures { (body : List ℕ) (e f : PatternRefusal) → IsReason body e → IsReason body f → e ≡ f }
{}
