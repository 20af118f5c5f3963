//! The audit of the records of runs that followed one another on one image.

ghost use Rattle.std.specs.Prelude.{◌≡◌, ℕ, ◌+◌, ◌*◌, ◌<◌, ◌≤◌, All, IfErr, IfOk, length, map};
ghost use Rattle.std.specs.Vec.{vec_items};
ghost use Rattle.fdp_base.specs.Config.{IsValidConfig};
ghost use Rattle.fdp_plain.specs.Run.{next_position};
ghost use Rattle.fdp_audit.specs.Audit.{GivesYes, IsAuditCause, IsAudited, number_told};
ghost use Rattle.fdp_audit.specs.Steps.{IsOutcomeBehind};

use crate::fault::{AuditFault, RunFault};
use crate::next::go_on;
use crate::verdict::judge_run;
use fdp_base::{DriveConfig, LONGEST_TRACE};
use fdp_plain::Plain;
use std::alloc::Global;

/// How many entries the history has that stands behind these records of runs that followed one another on one image, the first of them on a new one; or what is wrong
/// with which of them. One to sixteen texts are audited, in their order, of at most as many bytes as a trace may have.
///
/// Of each it is told first whether it is no record, then which entry of its history is none that may follow, then where its output is not that of the history; and then
/// whether a completed change of the one before it is lost. A plain drive takes the history of each; for each record behind the first it takes the histories before it again.
pub fn audit(alloc: Global, texts: &[Vec<u8>], config: &DriveConfig) -> Result<u64, AuditFault>
    requires config { IsValidConfig config.now }
    requires some { 0 < length texts.now }
    requires few { length texts.now ≤ 16 }
    requires short { All (λ text. length text.items ≤ LONGEST_TRACE) texts.now }
    ensures yes { IfOk result (IsAudited config.now (map vec_items texts.now)) }
    ensures cause { IfErr result (IsAuditCause config.now (map vec_items texts.now)) }

    // No such records are refused, unless memory runs out.
    ensures only { (count : ℕ) → IsAudited config.now (map vec_items texts.now) count → GivesYes count result }
{
    let Some((first, others)) = texts.split_first() else {
        unreachable!();
    };
    let Ok(mut plain) = Plain::new(alloc, config) else {
        return Err(AuditFault {
            number: 1,
            cause: RunFault::NoMemory,
        });
    };
    match judge_run(alloc, first.as_slice(), &mut plain) {
        Ok(()) => {}
        Err(cause) => return Err(AuditFault { number: 1, cause }),
    }
    match judge_others(alloc, &mut plain, others, 1) {
        Ok(()) => Ok(plain.next_position() - 1),
        Err(fault) => Err(fault),
    }
}

/// Has a plain drive go on from run to run, as these texts tell; the record of its last run has this number.
fn judge_others(
    alloc: Global,
    plain: &mut Plain,
    texts: &[Vec<u8>],
    number: usize,
) -> Result<(), AuditFault>
    requires few { number + length texts.now ≤ 16 }
    requires short { All (λ text. length text.items ≤ LONGEST_TRACE) texts.now }
    requires room { next_position plain.old ≤ 1 + number * LONGEST_TRACE }
    ensures { IsOutcomeBehind plain.old (map vec_items texts.now) number plain.new result }
{
    match texts.split_first() {
        Some((text, others)) => match go_on(alloc, plain, text.as_slice()) {
            Ok(()) => judge_others(alloc, plain, others, number + 1),
            Err(cause) => Err(AuditFault {
                number: number_told(number, cause),
                cause,
            }),
        },
        None => Ok(()),
    }
}

/// The number of the record of which a fault is told that is found with the one behind the record of this number.
fn number_told(number: usize, cause: RunFault) -> usize
    requires { number < 16 }
    ensures { result ≡ number_told number cause }
{
    match cause {
        RunFault::Lost { .. } => number,
        RunFault::Line(_)
        | RunFault::Illegal { .. }
        | RunFault::Output { .. }
        | RunFault::NoMemory => number + 1,
    }
}
