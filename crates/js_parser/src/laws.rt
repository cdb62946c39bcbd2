//! What reading a text answers, against the grammar, and that bytes have one refusal: laws of the definitions, with no
//! work to do.

ghost use Rattle.std.specs.Prelude.{◌≡◌, ℕ, List, Ok, Err};
ghost use Rattle.js_ast.specs.declared.statement.Script.{Script as SpecScript};
ghost use Rattle.js_ast.specs.declared.statement.Stmt.{Stmt as SpecStmt};
ghost use Rattle.js_reading.specs.Reading.{start};
ghost use Rattle.js_parser.specs.Outcomes.{Outcome, IsOutcome};
ghost use Rattle.js_parser.specs.Spelling.{IsSpelling, Spells};
ghost use Rattle.js_parser.specs.Refusals.{IsRefusedIn, IsReason};
ghost use Rattle.js_parser.specs.declared.refusal.ScriptRefusal.{ScriptRefusal as SpecRefusal};

use js_laws::{completeness, soundness, viability};
use js_lexer::{one_goal, one_token, one_value};

/// A text is read exactly where its tokens spell it, as those statements; reading answers one thing; and what is refused
/// is refused at its place and for its reason, which is the only one.
pub fn readings()
    ensures spelt { (text : List ℕ) (body : List SpecStmt) → IsOutcome text 0 start (Ok body) → IsSpelling text body }
    ensures read { (text : List ℕ) (body : List SpecStmt) → IsSpelling text body → IsOutcome text 0 start (Ok body) }
    ensures one { (text : List ℕ) (a b : Outcome) → IsOutcome text 0 start a → IsOutcome text 0 start b → a ≡ b }
    ensures refused { (text : List ℕ) (e : SpecRefusal) → IsOutcome text 0 start (Err e) → IsRefusedIn text e }
    ensures alone { (text : List ℕ) (e f : SpecRefusal) → IsRefusedIn text e → IsRefusedIn text f → e ≡ f }
    ensures apart { (text : List ℕ) (body : List SpecStmt) (e : SpecRefusal) → IsSpelling text body → IsRefusedIn text e → ⊥ }
{
    one_token();
    one_value();
    one_goal();
    completeness();
    soundness();
    viability();
}

/// Of the same bytes at most one refusal meets the clause `refused` of `parse_script`, but for want of memory; and of
/// bytes that spell a script none does.
pub fn one_refusal()
    ensures alone { (bytes : List ℕ) (e f : SpecRefusal) → IsReason bytes e → IsReason bytes f → e ≡ f }
    ensures apart { (bytes : List ℕ) (script : SpecScript) (e : SpecRefusal) → Spells bytes script → IsReason bytes e → ⊥ }
{
    readings();
}
