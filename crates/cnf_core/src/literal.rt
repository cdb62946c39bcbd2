//! Literals.

ghost use Rattle.std.specs.Prelude.{◌≡◌, ◌≤◌, ◌^◌, ◌↔◌, pos, neg_ℤ, unsigned_abs, IsSome, IfSome, int_lt};
ghost use Rattle.cnf_core.specs.Literals.{IsLiteral};

use std::marker::Model;

/// A variable or its opposite, as DIMACS writes it: `n` says that variable `n` is true, `-n` that
/// it is false. It is never 0, and at most 2^62 without its sign. Contracts see the integer.
#[derive(Clone, Copy, Debug, PartialEq, Eq)]
pub struct Lit(i64);

impl Model for Lit {
    ghost use Rattle.std.specs.Prelude.{ℤ};
    ghost use Rattle.cnf_core.specs.Literals.{IsLiteral};

    ghost Value = { ℤ };

    ghost view = { λ l. l.0 };

    ghost inverse = { λ z. record { 0 = z } };

    ghost invariant = { λ l. IsLiteral l.0 };
}

const MOST: u64 = 1 << 62;

impl Lit {
    /// The literal of this number, which is none where it is 0 or above 2^62 without its sign.
    pub fn new(number: i64) -> Option<Lit>
        ensures value { IfSome result (λ lit. lit ≡ number) }
        ensures exact { IsSome result ↔ IsLiteral number }
    {
        let variable = number.unsigned_abs();
        if variable == 0 || variable > MOST {
            return None;
        }
        Some(Lit(number))
    }

    /// The literal that says that the variable is true.
    pub fn positive(variable: u64) -> Lit
        requires least { 1 ≤ variable }
        requires most { variable ≤ 2 ^ 62 }
        ensures { result ≡ pos variable }
    {
        Lit(variable as i64)
    }

    /// The integer that the literal is.
    pub fn number(self) -> i64
        ensures value { result ≡ self }
        ensures literal { IsLiteral self }
    {
        self.0
    }

    /// The variable that the literal names.
    pub fn variable(self) -> u64
        ensures value { result ≡ unsigned_abs self }
        ensures least { 1 ≤ result }
        ensures most { result ≤ 2 ^ 62 }
    {
        self.0.unsigned_abs()
    }

    /// Whether the literal says that its variable is false.
    pub fn is_negative(self) -> bool
        ensures { result ≡ int_lt self (pos 0) }
    {
        self.0 < 0
    }

    /// The literal that is false where this one is true.
    pub fn opposite(self) -> Lit
        ensures { result ≡ neg_ℤ self }
    {
        Lit(-self.0)
    }
}
