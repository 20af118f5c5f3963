ghost use Rattle.std.specs.Prelude.{◌<◌};
ghost use Rattle.fdp_core.specs.Answers.{Checkpoints};
ghost use Rattle.fdp_core.specs.Stops.{OutlastsStops};

use super::Group;
use fdp_flash::{Flash, Wrote};

impl<F: Flash> Group<F> {
    /// Saves the whole drive: from Done on no stop loses an entry. It writes a page for each block's worth of what a checkpoint says, four bytes
    /// for each block of a namespace among it. It is a step where it is done.
    pub fn checkpoint(&mut self) -> Wrote
        requires spare { 0 < self.old.book.spare }
        ensures step { Checkpoints F.state self.old self.new result }
        ensures stops { OutlastsStops F.state self.old self.new }
    {
        self.can_save();
        match self.keeper.checkpoint(&mut self.flash, &self.book) {
            Wrote::Done => {
                self.book.begin();
                Wrote::Done
            }
            Wrote::Failed => Wrote::Failed,
        }
    }
}
