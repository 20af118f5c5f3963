ghost use Rattle.std.specs.Prelude.{◌≡◌, ℕ, ◌<◌};

use std::marker::Model;

/// How many of the high bits of a placement identifier are the reclaim group (RGIF): 0 to 15.
#[derive(Clone, Copy, Debug, PartialEq, Eq)]
pub struct GroupBits {
    bits: u8,
}

impl Model for GroupBits {
    ghost Value = { ℕ };

    ghost view = { λ g. g.bits };

    ghost invariant = { λ g. g.bits < 16 };

    ghost inverse = { λ n. record { bits = n } };
}

impl GroupBits {
    pub fn new(bits: u8) -> Self
        requires { bits < 16 }
        ensures { result ≡ bits }
    {
        GroupBits { bits }
    }

    pub fn bits(self) -> u8
        ensures value { result ≡ self }
        ensures four_bits { result < 16 }
    {
        self.bits
    }
}
