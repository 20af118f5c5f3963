//! Tests of what a drive asks of a command before its first step.
ghost use Rattle.std.specs.Prelude.{◌<◌, ◌↔◌, IsTrue};
ghost use Rattle.fdp_rules.specs.Step.{IsQueue};
ghost use Rattle.fdp_core_tests.specs.Played.{MayPlay};

use fdp_base::{Command, DriveConfig};
use fdp_commands::is_well_formed;
use fdp_core::Group;
use fdp_flash::Flash;

/// Whether a command may be begun in a queue under a number.
pub fn may_play<F: Flash>(group: &Group<F>, queue: u8, number: u16, command: &Command) -> bool
    ensures may { IsTrue result ↔ MayPlay group.now queue number command.now }
    ensures row { IsTrue result → queue < 17 }
{
    is_queue(group.config(), queue)
        && is_well_formed(group.config(), command)
        && group.is_free(queue, number)
        && has_spare(group)
}

/// Whether there is memory for a step.
pub fn has_spare<F: Flash>(group: &Group<F>) -> bool
    ensures { IsTrue result ↔ (0 < group.now.book.spare) }
{
    group.spare_steps() > 0
}

/// Whether a queue is one of the drive.
fn is_queue(config: &DriveConfig, queue: u8) -> bool
    ensures { IsTrue result ↔ IsQueue config.now queue }
{
    1 <= queue && queue <= config.queues
}
