//! The top call.

ghost use Rattle.std.specs.Prelude.{◌≡◌, ◌≢◌, ◌<◌, ◌⊎◌, ◌++◌, ℕ, List, None};
ghost use Rattle.std.specs.Io.KnownBytes.{Appends, Keeps};
ghost use Rattle.js_parser.specs.declared.refusal.ScriptRefusal.{ScriptRefusal};
ghost use Rattle.commands.specs.declared.texts.TheConstants.{SCRIPT_REFUSED};
ghost use Rattle.commands.specs.TopCall.{listed_files, usage, names, seen_by, Writes, IsReadFault, IsTooLong, IsBoundsRefused, IsTooMany, IsScriptRefused, IsListing, IsDecided, IsWriteFault, IsUnfailed, ToldList, HeldList, IsOverlong, AreNoBounds, IsNoScript, IsBadScript, AreAccepted, reason_text};

use crate::decide::decide;
use ex_base::{Files, Sink, WriteFault, write_all};
use js_parser::one_refusal;
use js_units::NoMemory;
use std::alloc::Global;
use std::thread::Threads;

/// How a run went: 0 done, 2 usage, 3 read fault, 4 write fault, 5 script refused, 6 bounds refused, 7 want of
/// memory, 8 file too long.
#[derive(Clone, Copy, PartialEq, Eq)]
pub struct Status {
    pub number: u8,
}

/// Does what the words ask: `list SCRIPT BOUNDS` writes each path of the script within the bounds. All is decided
/// before anything is written.
#[tactic(auto, using(crate::proofs::Faults::only_usage, crate::proofs::Faults::only_fault))]
pub fn run<R: Threads + Sync, F: Files, K: Sink>(
    _rt: &R,
    alloc: Global,
    words: &[Vec<u8>],
    files: &mut F,
    out: &mut K,
) -> Status
    // Want of memory writes nothing.
    ensures no_memory { result.number ≡ 7 → Keeps (K.written out.old) (K.written out.new) }
    // A fault of the sink takes the place of what was decided, a proper front of which was written; and where the sink
    // failed, nothing else comes.
    ensures write_fault { result.number ≡ 4 → IsWriteFault (names words.now) (seen_by (F.held files.old) (F.last files.new) (F.faults files.old) (F.faults files.new)) (K.written out.old) (K.written out.new) (K.faults out.old) (K.faults out.new) }
    ensures write_fault_only { K.faults out.old < K.faults out.new → result.number ≡ 4 }
    // Any other status is what was decided, and its text is written.
    ensures decided { result.number ≢ 7 → result.number ≢ 4 → Writes (λ text. IsDecided (names words.now) (seen_by (F.held files.old) (F.last files.new) (F.faults files.old) (F.faults files.new)) result.number text) (K.written out.old) (K.written out.new) }

    // The usage line comes exactly where the words are no form.
    ensures usage { result.number ≡ 2 → (listed_files (names words.now) ≡ None) × Appends (K.written out.old) (K.written out.new) usage }
    ensures usage_only { listed_files (names words.now) ≡ None → result.number ≢ 7 → result.number ≢ 4 → result.number ≡ 2 }

    // Nothing is asked of the files then.
    ensures usage_unread { listed_files (names words.now) ≡ None → (F.last files.new ≡ F.last files.old) × (F.faults files.new ≡ F.faults files.old) }

    // A read fault comes only where the count of faults rose, in the last load; and where it rose, nothing else comes.
    ensures read_fault { result.number ≡ 3 → Writes (λ text. IsReadFault (names words.now) (seen_by (F.held files.old) (F.last files.new) (F.faults files.old) (F.faults files.new)) result.number text) (K.written out.old) (K.written out.new) }
    ensures read_fault_only { F.faults files.old < F.faults files.new → result.number ≢ 7 → result.number ≢ 4 → result.number ≡ 3 }

    // Too long comes only where the last load took one byte more than the limit; exactly there, where content is told.
    ensures too_long { result.number ≡ 8 → Writes (λ text. IsTooLong (names words.now) (seen_by (F.held files.old) (F.last files.new) (F.faults files.old) (F.faults files.new)) result.number text) (K.written out.old) (K.written out.new) }
    ensures too_long_only { IsOverlong (names words.now) (F.held files.old) → IsUnfailed result.number → result.number ≡ 8 }

    // The bounds are refused exactly where none stand, or where they have too many inputs.
    ensures bounds_refused { (script bounds : List ℕ) → ToldList (names words.now) (F.held files.old) script bounds → result.number ≡ 6 → Writes (λ text. IsBoundsRefused bounds result.number text ⊎ IsTooMany bounds result.number text) (K.written out.old) (K.written out.new) }
    ensures bounds_refused_only { (script bounds : List ℕ) → HeldList (names words.now) (F.held files.old) script bounds → AreNoBounds bounds → IsUnfailed result.number → result.number ≡ 6 }

    // The script is refused exactly where the bounds are accepted and no script is spelt, with the one reason that there is.
    ensures script_refused { (script bounds : List ℕ) → ToldList (names words.now) (F.held files.old) script bounds → result.number ≡ 5 → Writes (λ text. IsScriptRefused script bounds result.number text) (K.written out.old) (K.written out.new) }
    ensures script_refused_only { (script bounds : List ℕ) → HeldList (names words.now) (F.held files.old) script bounds → IsNoScript script bounds → IsUnfailed result.number → result.number ≡ 5 }
    ensures script_refused_why { (script bounds : List ℕ) (refused : ScriptRefusal) → HeldList (names words.now) (F.held files.old) script bounds → IsBadScript script bounds refused → IsUnfailed result.number → Writes (λ text. text ≡ SCRIPT_REFUSED.now ++ reason_text refused) (K.written out.old) (K.written out.new) }

    // The paths are listed exactly where both are accepted: the printed lines are the paths.
    ensures listed { (script bounds : List ℕ) → ToldList (names words.now) (F.held files.old) script bounds → result.number ≡ 0 → Writes (λ text. IsListing script bounds result.number text) (K.written out.old) (K.written out.new) }
    ensures listed_only { (script bounds : List ℕ) → HeldList (names words.now) (F.held files.old) script bounds → AreAccepted script bounds → IsUnfailed result.number → result.number ≡ 0 }
{
    one_refusal();
    match decide(alloc, words, files) {
        Ok(decided) => match write_all(out, &decided.text) {
            Ok(()) => Status {
                number: decided.number,
            },
            Err(WriteFault) => Status { number: 4 },
        },
        Err(NoMemory) => Status { number: 7 },
    }
}
