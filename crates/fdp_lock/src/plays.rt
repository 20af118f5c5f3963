//! What each step on the table tells the seat that makes it.
ghost use Rattle.fdp_lock.specs.Steps.{Takes, Gives, Names, Learns, giver, newcomer, note, joined, spent};

use crate::view::View;
use atomic_table::{Join, Play, Split};
use fdp_base::Recorded;

/// Takes the value where it is at home.
pub struct Take;

impl<V: Recorded> Play<Option<V>, View<V::Origin, V::Item>> for Take {
    ghost then = { Takes V.origin V.entries V.mark };
}

/// Gives the value back.
pub struct Give;

impl<V: Recorded> Play<Option<V>, View<V::Origin, V::Item>> for Give {
    ghost then = { Gives V.entries V.mark };
}

/// Says which number the seat gives next. It changes no word.
pub struct Name;

impl<S, O, I> Play<Option<S>, View<O, I>> for Name {
    ghost then = { Names };
}

/// Compares what the seat has seen with what it was told.
pub struct Learn;

impl<S, O, I> Play<Option<S>, View<O, I>> for Learn {
    ghost then = { Learns };
}

/// A seat gives one part, and the number that it named, to a new one.
pub struct Part;

impl<O, I> Split<View<O, I>> for Part {
    ghost left = { giver };

    ghost right = { newcomer };
}

/// A seat says what it has seen.
pub struct Note;

impl<O, I> Split<View<O, I>> for Note {
    ghost left = { λ v. v };

    ghost right = { note };
}

/// A seat takes in another.
pub struct Both;

impl<O, I> Join<View<O, I>> for Both {
    ghost both = { joined };

    ghost spent = { spent };
}
