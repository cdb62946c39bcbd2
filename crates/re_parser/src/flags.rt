//! Flags of patterns (ECMA-262, section 22.2.3.4).

ghost use Rattle.std.specs.Prelude.{◌≡◌, ◌≤◌, ◌<◌, length, Result, IfSome};
ghost use Rattle.std.specs.Option.{option_map};
ghost use Rattle.re_parser.specs.Flags.{first_at, with_flag, flags_from, no_flags, FlagsRead};

use re_ast::Flags;

/// With one flag more, that isn't set yet.
#[tactic(auto, unfolding(crate::specs::Flags::with_flag))]
fn with_flag(flags: Flags, unit: u16) -> Option<Flags>
    ensures { result ≡ with_flag flags unit }
{
    match unit {
        103 if !flags.global => Some(Flags {
            global: true,
            ..flags
        }),
        105 if !flags.ignore_case => Some(Flags {
            ignore_case: true,
            ..flags
        }),
        109 if !flags.multiline => Some(Flags {
            multiline: true,
            ..flags
        }),
        121 if !flags.sticky => Some(Flags {
            sticky: true,
            ..flags
        }),
        _ => None,
    }
}

/// The first unit, and those behind it.
fn first_of(units: &[u16]) -> Option<(u16, &[u16])>
    ensures read { option_map (λ x. (x.0, x.1.now)) result ≡ first_at units.now }
    ensures shorter { IfSome result (λ x. length x.1.now < length units.now) }
{
    match units {
        [first, rest @ ..] => Some((*first, rest)),
        [] => None,
    }
}

/// The flags, or the place of the first unit that is none or a repeat.
pub fn read_flags(units: &[u16]) -> Result<Flags, usize>
    ensures { FlagsRead units.now result }
{
    let mut flags = Flags {
        global: false,
        ignore_case: false,
        multiline: false,
        sticky: false,
    };
    let mut left = units;
    while let Some((first, rest)) = first_of(left) {
        match with_flag(flags, first) {
            Some(next) => flags = next,
            None => return Err(units.len() - left.len()),
        }
        left = rest;
    }
    Ok(flags)
}
