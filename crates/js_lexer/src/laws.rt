//! Laws of the definitions in `specs/`: each is the contract of a function that does nothing.

ghost use Rattle.std.specs.Prelude.{◌≡◌, ◌≤◌, ◌⊎◌, ℕ, List, true, false, drop, Result, Err};
ghost use Rattle.js_lexer.specs.Numbers.{IsNumeral, max_safe};
ghost use Rattle.js_lexer.specs.Texts.{IsText};
ghost use Rattle.js_lexer.specs.Tokens.{IsNext, IsNone, Next};
ghost use Rattle.js_lexer.specs.Slash.{begins_slash};
ghost use Rattle.js_lexer.specs.declared.token.Goal.{Goal};
ghost use Rattle.js_lexer.specs.declared.token.Goal.TheVariants as goals;
ghost use Rattle.js_lexer.specs.declared.token.Token.{Token};
ghost use Rattle.js_lexer.specs.declared.token.TokenKind.TheVariants as k;
ghost use Rattle.js_lexer.specs.declared.token.LexRefusal.{LexRefusal};

/// At most one token is next at a place, at one goal.
pub fn one_token()
    ensures token { (text : List ℕ) (at : ℕ) (goal : Goal) (a b : Token) → IsNext text at goal a → IsNext text at goal b → a ≡ b }
    ensures none { (text : List ℕ) (at : ℕ) (goal : Goal) (r : LexRefusal) (other : Result Token LexRefusal) → IsNone text at goal r → Next text at goal other → other ≡ Err r }
{}

/// A number that isn't wide has one value, and so has a text.
pub fn one_value()
    ensures number { (units rest behind : List ℕ) (a b : ℕ) → IsNumeral units a rest → IsNumeral units b behind → a ≤ max_safe → a ≡ b }
    ensures text { (units rest behind a b : List ℕ) → IsText units a rest → IsText units b behind → a ≡ b }
{}

/// The goal decides only at a `/` that begins no comment.
pub fn one_goal()
    ensures other { (text : List ℕ) (at : ℕ) (goal other : Goal) (t : Token) → IsNext text at goal t → begins_slash (drop t.start text) ≡ false → IsNext text at other t }
    ensures slash { (text : List ℕ) (at : ℕ) (goal : Goal) (t : Token) → IsNext text at goal t → begins_slash (drop t.start text) ≡ true → ((t.kind ≡ k.Mark) × (goal ≡ goals.Division)) ⊎ ((t.kind ≡ k.Pattern) × (goal ≡ goals.Pattern)) }
    ensures none { (text : List ℕ) (at : ℕ) (goal other : Goal) (r : LexRefusal) → IsNone text at goal r → begins_slash (drop r.at text) ≡ false → IsNone text at other r }
    ensures place { (text : List ℕ) (at : ℕ) (goal other : Goal) (t : Token) (r : LexRefusal) → IsNext text at goal t → IsNone text at other r → r.at ≡ t.start }
    ensures gap { (text : List ℕ) (at : ℕ) (goal other : Goal) (a b : Token) → IsNext text at goal a → IsNext text at other b → (a.start ≡ b.start) × (a.line_before ≡ b.line_before) }
    ensures nothing { (text : List ℕ) (at : ℕ) (goal other : Goal) (r s : LexRefusal) → IsNone text at goal r → IsNone text at other s → r.at ≡ s.at }
{}
