//! Between two events of a run no exit is passed twice, and none is ended at that was passed since the last event.

ghost use Rattle.std.specs.Prelude.{List, ◌≤◌, ℕ};
ghost use Rattle.js_units.specs.Utf8.{utf8_size};
ghost use Rattle.js_ast.specs.declared.statement.Script.{Script as SpecScript};
ghost use Rattle.js_grammar.specs.declared.token.Token.{Token as SpecToken};
ghost use Rattle.js_parser.specs.Spelling.{IsTokens, Spells};
ghost use Rattle.path_core.specs.declared.bounds.Bounds.{Bounds as SpecBounds};
ghost use Rattle.path_core.specs.declared.path.InputValue.{InputValue as SpecInputValue};
ghost use Rattle.js_meaning.specs.Values.{Answers};
ghost use Rattle.js_meaning.specs.Meaning.{most_ended};
ghost use Rattle.js_ends.specs.Places.{AreRising};
ghost use Rattle.js_ends.specs.Ends.{RunEndsApart};

/// The tokens of a text, from any place on, stand one behind another, as byte offsets, and the last before the text's end.
pub fn tokens_rise()
    ensures rising { (text : List ℕ) (at : ℕ) (tokens : List SpecToken) → IsTokens text at tokens → AreRising (utf8_size text) tokens }
{}

/// Of each script that bytes spell, which is what `parse_script` reads, on each input and with all answers for its single
/// execs.
pub fn ends_apart()
    ensures apart { (bytes : List ℕ) (script : SpecScript) (bounds : SpecBounds) (values : List SpecInputValue) (answers : Answers) → Spells bytes script → bounds.turns ≤ most_ended → RunEndsApart script bounds values answers }
{}
