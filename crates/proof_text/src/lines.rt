//! Parts of lines.

ghost use Rattle.std.specs.Prelude.{◌≡◌};
ghost use Rattle.std.specs.Option.{option_map};
ghost use Rattle.proof_text.specs.Lines.{after};

/// What is behind the word, where the bytes begin with it.
pub fn after<'a>(word: &str, bytes: &'a [u8]) -> Option<&'a [u8]>
    ensures { option_map (λ x. x.now) result ≡ after word.now bytes.now }
{
    let mut wanted = word.as_bytes();
    let mut left = bytes;
    while let [first, others @ ..] = wanted {
        let [byte, rest @ ..] = left else {
            return None;
        };
        if *first != *byte {
            return None;
        }
        wanted = others;
        left = rest;
    }
    Some(left)
}
