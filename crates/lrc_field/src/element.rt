//! One element of the field.
ghost use Rattle.std.specs.Prelude.{◌≡◌, ◌<◌, ◌^◌, ℕ, bit_xor, MatchOption};
ghost use Rattle.lrc_field.specs.Field.{times, IsProduct};

use crate::tables;
use std::marker::Model;

/// An element of the field: a byte whose bit i is the coefficient of x^i. In contracts it is that number, and for C that byte.
#[repr(C)]
#[derive(Clone, Copy, Debug)]
pub struct Gf {
    value: u8,
}

impl Model for Gf {
    ghost Value = { ℕ };

    ghost view = { λ g. g.value };

    ghost invariant = { λ g. g.value < 2 ^ 8 };

    ghost inverse = { λ n. record { value = n } };
}

impl Gf {
    /// The element with these coefficients.
    pub fn new(byte: u8) -> Gf
        ensures { result ≡ byte }
    {
        Gf { value: byte }
    }

    /// The element's coefficients.
    pub fn byte(self) -> u8
        ensures { result ≡ self }
    {
        self.value
    }

    /// The sum, which is also the difference: exclusive or.
    pub fn add(self, other: Gf) -> Gf
        ensures { result ≡ bit_xor self other }
    {
        Gf {
            value: self.value ^ other.value,
        }
    }

    /// The product of the polynomials, reduced.
    pub fn mul(self, other: Gf) -> Gf
        ensures product { IsProduct self other result }
        ensures value { result ≡ times self other }
    {
        Gf {
            value: tables::product(self.value, other.value),
        }
    }

    /// The element whose product with this one is 01. Zero has none.
    pub fn inverse(self) -> Option<Gf>
        ensures { MatchOption result (self ≡ 0) (λ b. times self b ≡ 1) }
    {
        if self.value == 0 {
            return None;
        }
        Some(Gf {
            value: tables::inverse(self.value),
        })
    }
}
