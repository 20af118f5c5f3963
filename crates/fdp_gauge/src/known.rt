//! What a pass of the gauge's cell knows, the rule of the cell, and what each step tells.
ghost use Rattle.std.specs.Prelude.{List};

use atomic_table::{Join, Split};
use crossbeam_utils::atomic::seq_cell::{Pass, RuledSeqCell};
use crossbeam_utils::rule::{Outcome, Protocol};
use fdp_base::Mark;
use std::collections::LinkedList;
use std::marker::{Brand, PhantomData};

/// What one pass of the cell knows. No value of it is made.
pub struct Known {
    /// Whether it is the teller's.
    pub tells: bool,
    pub seen: LinkedList<Mark>,
    /// What another pass has seen and told.
    pub told: LinkedList<Mark>,
}

/// The list that a call tells. Each call picks it.
pub trait Listed {
    ghost use Rattle.fdp_base.specs.declared.recorded.Mark.{Mark};

    ghost list: { List Mark };
}

impl Listed for Brand {
    ghost use Rattle.std.specs.Prelude.{[]};

    ghost list = { [] };
}

/// The rule of the cell. Its words are the length of the list and the three sums.
pub struct Counted;

impl Protocol<[u64; 4], Known> for Counted {
    ghost use Rattle.fdp_gauge.specs.Rule.{Shows, first};

    ghost holds = { Shows };

    ghost first = { first };
}

/// The teller tells a list.
pub struct Stores<J> {
    of: PhantomData<J>,
}

impl<J: Listed> Outcome<[u64; 4], Known> for Stores<J> {
    ghost use Rattle.fdp_gauge.specs.Rule.{Stored};

    ghost then = { Stored J.list };
}

/// A pass sees a list.
pub struct Reads;

impl Outcome<[u64; 4], Known> for Reads {
    ghost use Rattle.fdp_gauge.specs.Rule.{Looked};

    ghost then = { Looked };
}

/// A pass compares what it has seen with what it was told.
pub struct Learns;

impl Outcome<[u64; 4], Known> for Learns {
    ghost use Rattle.fdp_gauge.specs.Rule.{Learned};

    ghost then = { Learned };
}

/// What one pass tells another.
pub struct Notes;

impl Split<Known> for Notes {
    ghost use Rattle.fdp_gauge.specs.Rule.{note};

    ghost left = { λ v. v };

    ghost right = { note };
}

impl Join<Known> for Notes {
    ghost use Rattle.fdp_gauge.specs.Rule.{informed, nobody};

    ghost both = { informed };

    ghost spent = { nobody };
}

/// All that a pass knows goes to a new one, which may be joined.
pub struct Off;

impl Split<Known> for Off {
    ghost use Rattle.fdp_gauge.specs.Rule.{nobody};

    ghost left = { λ v. nobody };

    ghost right = { λ v. v };
}

pub(crate) type Cell = RuledSeqCell<[u64; 4], Known, Counted, 4>;

pub(crate) type Place = Pass<[u64; 4], Known>;
