//! What the grammar of scripts spells is read, as the tree that it spells. The functions are laws, with no work to do.

ghost use Rattle.std.specs.Prelude.{◌≡◌, ◌≤◌, List, Ok};
ghost use Rattle.js_grammar.specs.Grammar.{Shape, ShallowShape};
ghost use Rattle.js_grammar.specs.declared.token.Token.{Token as SpecToken};
ghost use Rattle.js_ast.specs.declared.statement.Stmt.{Stmt as SpecStmt};
ghost use Rattle.js_reading.specs.declared.mode.Parser.{Parser as SpecParser};
ghost use Rattle.js_reading.specs.Reading.{IsRead, IsReadWhole, IsReadShallow, reads};

/// Each spelt script is read, token by token, as that tree; a shallow one with no token that nests too deep.
pub fn completeness()
    ensures whole { (ts : List SpecToken) (body : List SpecStmt) → Shape ts body → IsReadWhole ts body }
    ensures shallow { (ts : List SpecToken) (body : List SpecStmt) → ShallowShape ts body → IsReadShallow ts body }
{}

/// What is read from a state is what reading answers there, so that tokens spell at most one script.
pub fn certainty()
    ensures whole { (ts : List SpecToken) (p : SpecParser) (body : List SpecStmt) → IsRead (λ n. Unit {0}) ts p body → reads ts p ≡ Ok body }
    ensures shallow { (ts : List SpecToken) (p : SpecParser) (body : List SpecStmt) → IsRead (λ n. n ≤ 200) ts p body → reads ts p ≡ Ok body }
    ensures one_tree { (ts : List SpecToken) (a b : List SpecStmt) → Shape ts a → Shape ts b → a ≡ b }
{}
