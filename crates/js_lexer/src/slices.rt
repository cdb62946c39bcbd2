//! Parts of lists of units.

ghost use Rattle.std.specs.Prelude.{◌≡◌, ◌≤◌, length, take, drop};
ghost use Rattle.std.specs.Option.{option_map};
ghost use Rattle.js_lexer.specs.Reading.{first_at};

/// The units from a place on.
pub fn units_from(units: &[u16], at: usize) -> &[u16]
    requires { at ≤ length units.now }
    ensures { result.now ≡ drop at units.now }
{
    &units[at..]
}

/// The units up to a place.
pub fn units_to(units: &[u16], end: usize) -> &[u16]
    requires { end ≤ length units.now }
    ensures { result.now ≡ take end units.now }
{
    &units[..end]
}

/// The first unit, and those behind it.
pub fn first_of(units: &[u16]) -> Option<(u16, &[u16])>
    ensures { option_map (λ x. (x.0, x.1.now)) result ≡ first_at units.now }
{
    match units {
        [first, behind @ ..] => Some((*first, behind)),
        [] => None,
    }
}
