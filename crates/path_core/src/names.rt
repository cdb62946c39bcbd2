//! The names of inputs: which texts are names in the language.

ghost use Rattle.std.specs.Prelude.{◌≡◌, map};
ghost use Rattle.std.specs.List.{list_all};
ghost use Rattle.js_units.specs.Characters.{is_name_part};
ghost use Rattle.path_core.specs.Names.{is_among, is_name, is_reserved, is_word};

use js_units::{RESERVED_WORDS, is_name_part, is_name_start};

/// Whether the text is one of the texts.
#[tactic(auto, unfolding(crate::specs::Names::is_among))]
pub(crate) fn is_among(text: &str, texts: &[&str]) -> bool
    ensures { result ≡ is_among text.now (map (λ t. t.now) texts.now) }
{
    let mut left = texts;
    while let [first, rest @ ..] = left {
        if text == *first {
            return true;
        }
        left = rest;
    }
    false
}

#[tactic(auto, unfolding(js_units::specs::Words::reserved_words))]
fn is_reserved(name: &str) -> bool
    ensures { result ≡ is_reserved name.now }
{
    is_among(name, &RESERVED_WORDS)
}

fn are_name_bytes(bytes: &[u8]) -> bool
    ensures { result ≡ list_all is_name_part bytes.now }
{
    bytes.iter().all(|byte| is_name_part(u16::from(*byte)))
}

fn is_word(text: &[u8]) -> bool
    ensures { result ≡ is_word text.now }
{
    match text {
        [] => false,
        [first, rest @ ..] => is_name_start(u16::from(*first)) && are_name_bytes(rest),
    }
}

/// Whether the text is a Name: a letter, `_` or `$`, then such or digits, and no reserved word.
pub(crate) fn is_name(text: &str) -> bool
    ensures { result ≡ is_name text.now }
{
    is_word(text.as_bytes()) && !is_reserved(text)
}
