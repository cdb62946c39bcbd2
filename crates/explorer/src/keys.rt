//! Paths as keys of a map.

ghost use Rattle.std.specs.Prelude.{◌≡◌, ◌<◌, IfOk};
ghost use Rattle.std.proofs.Common.{ap};
ghost use Rattle.std.specs.Cmp.{partial_equiv_from_equiv, on_equiv};
ghost use Rattle.std.specs.Hash as fed;
ghost use Rattle.explorer.specs.Keys.{mixed, mixed_all, mixed_event, mixed_events, fingerprint, same_key};
ghost use Rattle.explorer.specs.SamePaths.{path_decides, path_equiv};

use js_units::Units;
use path_core::{Event, Path, is_same_path};
use std::hash::{Hash, Hasher};

/// A path by which a map finds what belongs to it.
#[derive(Drop)]
pub(crate) struct Key {
    pub path: Path,
}

/// One number more in a fingerprint.
fn mixed(sum: u64, number: u32) -> u64
    requires { sum < 2147483647 }
    ensures value { result ≡ mixed sum number }
    ensures small { result < 2147483647 }
{
    (sum * 1_000_003 + u64::from(number)) % 2_147_483_647
}

fn mixed_all(start: u64, text: &Units) -> u64
    requires { start < 2147483647 }
    ensures value { result ≡ mixed_all start text.now }
    ensures small { result < 2147483647 }
{
    let mut sum = start;
    let mut left = text.as_slice();
    while let [unit, rest @ ..] = left {
        sum = mixed(sum, u32::from(*unit));
        left = rest;
    }
    sum
}

fn mixed_event(sum: u64, event: &Event) -> u64
    requires { sum < 2147483647 }
    ensures value { result ≡ mixed_event sum event.now }
    ensures small { result < 2147483647 }
{
    match event {
        Event::Pick { site, out, .. } => mixed(mixed(sum, *site), *out),
        Event::Value { site, text } => mixed_all(mixed(sum, *site), text),
    }
}

/// The number that equal paths share.
fn fingerprint(path: &Path) -> u64
    ensures { result ≡ fingerprint path.now }
{
    let mut sum = 0;
    let mut left = path.events.as_slice();
    while let [event, rest @ ..] = left {
        sum = mixed_event(sum, event);
        left = rest;
    }
    sum
}

// Equal are keys of the same path.
impl PartialEq for Key {
    ghost eq = { same_key };

    ghost laws = { partial_equiv_from_equiv (on_equiv (λ k. k.path) path_equiv) };

    fn eq(&self, other: &Key) -> bool {
        is_same_path(&self.path, &other.path)
    }
}

impl Eq for Key {
    ghost laws = { on_equiv (λ k. k.path) path_equiv };
}

impl Hash for Key {
    ghost hash_input = { λ k. fed.u64 (fingerprint k.path) };

    ghost respects_eq = { λ a b h. ap (λ p. fed.u64 (fingerprint p)) ((path_decides a.path b.path).0 h) };

    fn hash<H: Hasher>(&self, state: &mut H) {
        fingerprint(&self.path).hash(state);
    }
}
