//! What a row comes to on plain contents.

ghost use Rattle.std.specs.Prelude.{◌≡◌, ℕ, true};
ghost use Rattle.js_values.specs.Numbers.{is_safe};
ghost use Rattle.js_meaning.specs.Running.{giving};
ghost use Rattle.js_meaning.specs.Values.{int, truth};
ghost use Rattle.js_ops.specs.Contents.{shown, IsRow};
ghost use Rattle.js_ops.specs.declared.row.Row.TheVariants.{Passed};

use path_core::Why;
use term_table::Plain;

/// A row's answer. The end of a guard, and of what the kinds decide, is `left` with the reason.
#[derive(Drop)]
pub enum Row {
    /// A value that no guard is shown for.
    Value(Plain),
    /// A guard that held, and the value.
    Passed { why: Why, value: Plain },
    /// A guard that failed.
    Failed { why: Why },
    /// An end that the kinds decide.
    Ended { why: Why },
}

/// A value behind a guard that held.
pub fn guarded(why: Why, value: Plain) -> Row
    ensures { result ≡ Passed why value }
{
    Row::Passed { why, value }
}

/// A boolean.
pub fn truth(holds: bool) -> Row
    ensures row { (site : ℕ) → shown site result ≡ giving (truth holds) }
    ensures whole { IsRow result }
{
    Row::Value(Plain::Bool(holds))
}

/// A safe integer.
pub fn whole(n: i64) -> Row
    requires { is_safe n ≡ true }
    ensures row { (site : ℕ) → shown site result ≡ giving (int n) }
    ensures whole { IsRow result }
{
    Row::Value(Plain::Int(n))
}
