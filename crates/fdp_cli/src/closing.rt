ghost use Rattle.std.specs.Prelude.{◌≡◌, IfOk};
ghost use Rattle.fdp_drive.specs.fdp_book.Book.{point_in};
ghost use Rattle.fdp_printing.specs.Closing.{IsClosing};

use fdp_base::{DriveConfig, Event, Totals};
use fdp_drive::Group;
use fdp_flash::Flash;
use fdp_printing::{Closing, Telling};
use std::alloc::{AllocError, Global};

/// What a drive tells of itself behind the completions: its sums and, while placement is enabled, the usage of its handles and its events.
pub fn closing_of<F: Flash>(alloc: Global, group: &Group<F>) -> Result<Closing, AllocError>
    ensures { IfOk result (λ closing. IsClosing group.now.book.config (point_in group.now.book) closing) }
{
    fdp_printing::closing_of(alloc, &Told { group })
}

/// A drive, as it tells of itself.
#[derive(Drop)]
struct Told<'a, F: Flash> {
    group: &'a Group<F>,
}

impl<'a, F: Flash> Telling for Told<'a, F> {
    ghost use Rattle.fdp_drive.specs.fdp_book.Book.{point_in};

    ghost config = { λ told. told.group.now.book.config };

    ghost point = { λ told. point_in told.group.now.book };

    fn config(&self) -> &DriveConfig {
        self.group.config()
    }

    fn totals(&self) -> Totals {
        self.group.totals()
    }

    fn fdp(&self) -> (bool, u8) {
        self.group.fdp()
    }

    fn usage(&self, ruh: u8) -> Option<u8> {
        self.group.usage(ruh)
    }

    fn event(&self, host: bool, index: u32) -> Option<Event> {
        self.group.event(host, index)
    }
}
