ghost use Rattle.fdp_lock.specs.Rule.{IsTied};

use crate::view::Token;
use fdp_base::Recorded;

/// A place at a lock, for one thread. It knows which lock it is of, which entries it has seen, and which
/// it made; these take no bytes.
#[derive(Drop)]
pub struct Seat<V: Recorded> {
    pub(crate) token: Token<V>,
    pub(crate) number: u8,
    pub(crate) parts: u8,
    pub(crate) turns: u64,
    pub(crate) given: u8,
    ghost tied: { IsTied token.me.0 number parts given },
}

impl<V: Recorded> Seat<V> {
    ghost use Rattle.std.specs.Prelude.{◌≡◌};
    ghost use Rattle.fdp_lock.specs.Seats.{turns_of, number_of, parts_of, given_of};

    /// The turns that it has had.
    pub fn turns(&self) -> u64
        ensures { result ≡ turns_of self.now }
    {
        self.turns
    }

    /// The number that its entries carry. The first seat of a lock has 0.
    pub fn number(&self) -> u8
        ensures { result ≡ number_of self.now }
    {
        self.number
    }

    /// The parts that it has of the right to end the lock.
    pub fn parts(&self) -> u8
        ensures { result ≡ parts_of self.now }
    {
        self.parts
    }

    /// The number that the first seat gave last, and 0 before the first.
    pub fn given(&self) -> u8
        ensures { result ≡ given_of self.now }
    {
        self.given
    }
}
