ghost use Rattle.fdp_plain.specs.Run.{point_in};

use fdp_base::{DriveConfig, Event, Totals};
use fdp_plain::Plain;
use fdp_printing::Telling;

/// A plain drive, as it tells of itself behind the completions.
#[derive(Drop)]
pub(crate) struct Told<'a> {
    pub(crate) plain: &'a Plain,
}

impl<'a> Telling for Told<'a> {
    ghost config = { λ told. told.plain.now.config };

    ghost point = { λ told. point_in told.plain.now };

    fn config(&self) -> &DriveConfig {
        self.plain.config()
    }

    fn totals(&self) -> Totals {
        self.plain.totals()
    }

    fn fdp(&self) -> (bool, u8) {
        self.plain.fdp()
    }

    fn usage(&self, ruh: u8) -> Option<u8> {
        self.plain.usage(ruh)
    }

    fn event(&self, host: bool, index: u32) -> Option<Event> {
        self.plain.event(host, index)
    }
}
