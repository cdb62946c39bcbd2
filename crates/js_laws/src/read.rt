//! The reading of scripts against their grammar: what is read is spelt, and each state that is reached may still
//! lead to a script.

ghost use Rattle.std.specs.Prelude.{◌≡◌, ◌-◌, List, length, take, Err};
ghost use Rattle.js_ast.specs.declared.statement.Stmt.{Stmt as SpecStmt};
ghost use Rattle.js_grammar.specs.declared.token.Token.{Token as SpecToken};
ghost use Rattle.js_grammar.specs.Grammar.{Shape, ShallowShape, Viable, IsPlace};
ghost use Rattle.js_reading.specs.declared.mode.Parser.{Parser as SpecParser};
ghost use Rattle.js_reading.specs.Reading.{start, reads, IsReadWhole, IsReadShallow};
ghost use Rattle.js_laws.specs.Reaching.{Reaches};
ghost use Rattle.js_laws.specs.Further.{IsViableBySpelt};

/// What is read is spelt, and no token nests deeper than the states that were read.
pub fn soundness()
    ensures whole { (ts : List SpecToken) (body : List SpecStmt) → IsReadWhole ts body → Shape ts body }
    ensures shallow { (ts : List SpecToken) (body : List SpecStmt) → IsReadShallow ts body → ShallowShape ts body }
{}

/// Some script begins with the tokens that were read, also with those in front of a refused one. Where all that is
/// spelt is read, that one is the least token such that no script begins with the tokens up to it. Wherever some script
/// begins with given tokens, one does whose further tokens are such as texts have.
pub fn viability()
    ensures reached { (ts : List SpecToken) (p : SpecParser) → Reaches ts start p → Viable ts }
    ensures spelt { (ts : List SpecToken) → Viable ts → IsViableBySpelt ts }
    ensures refused { (ts rest : List SpecToken) → reads ts start ≡ Err rest → Viable (take (length ts - length rest) ts) }
    ensures place { ((ts : List SpecToken) (body : List SpecStmt) → Shape ts body → IsReadWhole ts body)
        → (ts rest : List SpecToken) → reads ts start ≡ Err rest → IsPlace ts (length ts - length rest) }
{}
