ghost use Rattle.std.specs.Prelude.{◌≡◌, IfOk};

use crate::kept::{Began, Kept, Knows};
use crossbeam_utils::atomic::seq_cell::{Pass, RuledSeqCell};
use std::alloc::{AllocError, Global};
use std::marker::Model;

/// What a run of a drive began with: the drive that its image stood for, and the cells of its flash then. It takes no bytes: nothing
/// of it is known but to contracts, and no call changes it.
#[derive(Drop)]
pub struct Origin {
    pass: Pass<[u64; 1], Kept>,
}

impl Model for Origin {
    ghost use Rattle.crossbeam_utils.specs.Seq.{cell_view};
    ghost use Rattle.fdp_origin.specs.Opening.{Opening};

    ghost Value = { Opening };

    ghost view = { λ origin. cell_view origin.pass };
}

impl Origin {
    /// Keeps what the caller picks. It takes a word of memory, and gives it back.
    pub fn keep<J: Began>(alloc: Global) -> Result<Origin, AllocError>
        ensures { IfOk result (λ origin. origin ≡ J.opening) }
    {
        let (cell, pass) = RuledSeqCell::<[u64; 1], Kept, Knows<J>, 1>::ruled(alloc, [0])?;
        drop(cell);
        Ok(Origin { pass })
    }
}
