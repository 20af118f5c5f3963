ghost use Rattle.std.specs.Prelude.{◌≡◌, length};

use crate::beginning::Beginning;
use fdp_base::{Entry, Mark, Recorded};
use fdp_flash::Flash;
use fdp_workers::Group;
use std::marker::Model;

/// The history of a drive, to be shown on a gauge.
#[derive(Drop)]
pub struct Record<'a, F: Flash> {
    pub group: &'a Group<F>,
}

impl<'a, F: Flash> Model for Record<'a, F> {
    ghost use Rattle.fdp_workers.specs.fdp_core.Seen.{Seen};

    ghost Value = { Seen F };

    ghost view = { λ r. r.group.now };
}

impl<'a, F: Flash> Recorded for Record<'a, F> {
    ghost use Rattle.fdp_board.specs.Board.{items_of, no_beginning};
    ghost use Rattle.fdp_workers.specs.Marks.{mark_in};

    type Origin = Beginning;

    type Item = (Entry, Mark);

    ghost origin = { λ _. no_beginning };

    ghost entries = { items_of };

    ghost mark = { mark_in };

    fn length(&self) -> u64 {
        self.group.entries().len() as u64
    }
}
