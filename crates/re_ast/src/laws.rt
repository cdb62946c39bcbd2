//! Laws of the definitions in `specs/`: each is the contract of a function that does nothing.

ghost use Rattle.std.specs.Prelude.{ℕ, Bool, List, Option, ◌≡◌, ◌≤◌, length, ◌↔◌, IsTrue, ◌+◌, if◌then◌else◌};
ghost use Rattle.re_ast.specs.declared.patterns.Flags.{Flags};
ghost use Rattle.re_ast.specs.Tree.{Tree};
ghost use Rattle.re_ast.specs.Characters.{has_member};
ghost use Rattle.re_ast.specs.Successes.{State, succ};
ghost use Rattle.re_ast.specs.declared.patterns.Pattern.{Pattern};
ghost use Rattle.re_ast.specs.Execution.{exec};
ghost use Rattle.re_ast.specs.Laws.{Each, LiesAhead, Unfolds, IsLike, Finds};

/// A repetition has the list that RepeatMatcher gives it, with no bound on the number of its turns
/// (ECMA-262, section 22.2.2.3.1).
pub fn repetition_unfolds()
    ensures { (flags : Flags) (text : List ℕ) (body : Tree) (min : ℕ) (max : Option ℕ) (lazy : Bool) (first : ℕ) (past : ℕ) (st : State) →
        st.place ≤ length text → Unfolds flags text body min max lazy first past st }
{}

/// Each end state of a node lies at its start or behind it, and within the text.
pub fn ends_lie_ahead()
    ensures { (flags : Flags) (text : List ℕ) (tree : Tree) (st : State) →
        st.place ≤ length text → Each (LiesAhead text st.place) (succ flags text tree st) }
{}

/// A unit matches the ranges of a class exactly where it has the canonical unit of a member
/// (ECMA-262, section 22.2.2.7.1, CharacterSetMatcher).
pub fn classes_fold()
    ensures { (ignore_case : Bool) (ranges : List (ℕ × ℕ)) (unit : ℕ) → IsTrue (has_member ignore_case ranges unit) ↔ IsLike ignore_case ranges unit }
{}

/// A pattern matches nothing in a text exactly where no start from `from` on, or under `y` not
/// `from` itself, has a success; else it matches the first success of the least start that has one.
pub fn search_finds_the_first()
    ensures { (pattern : Pattern) (text : List ℕ) (from : ℕ) → from ≤ length text →
        Finds pattern text from ((if pattern.flags.sticky then from else length text) + 1) (exec pattern text from) }
{}
