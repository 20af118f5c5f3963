//! The value that an origin keeps, and who picks it.

use crossbeam_utils::rule::Protocol;
use std::marker::{Brand, Model, PhantomData};

/// What a run began with. No value of it is made.
pub struct Kept {
    never: u8,
}

impl Model for Kept {
    ghost use Rattle.fdp_origin.specs.Opening.{Opening, blank};

    ghost Value = { Opening };

    ghost view = { λ _. blank };
}

/// What a run begins with. Each call that keeps it picks it.
pub trait Began {
    ghost use Rattle.fdp_origin.specs.Opening.{Opening};

    ghost opening: { Opening };
}

impl Began for Brand {
    ghost use Rattle.fdp_origin.specs.Opening.{blank};

    ghost opening = { blank };
}

/// The rule of the cell from which an origin comes: nothing is said of its word, and who holds it knows this.
pub struct Knows<J> {
    of: PhantomData<J>,
}

impl<J: Began> Protocol<[u64; 1], Kept> for Knows<J> {
    ghost holds = { λ _ _. Unit {0} };

    ghost first = { J.opening };
}
