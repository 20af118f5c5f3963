ghost use Rattle.std.specs.Prelude.{◌≡◌, Err, OnErr, OnOk, None};
ghost use Rattle.fdp_image.specs.Reads.{told_by};
ghost use Rattle.fdp_replay.specs.Records.{IsTaken, IsUnfit};

use crate::replayed::{Refusal, Replayed};
use fdp_records::{BadRecord, Change};
use std::alloc::Global;

/// Why a record is not applied.
#[derive(Clone, Copy, Debug, PartialEq, Eq)]
pub enum RecordFault {
    Bad,
    Unfit,
    NoMemory,
}

/// Applies the changes that a page with these bytes tells.
#[tactic(auto, using(crate::proofs::Journals::taken_one, crate::proofs::Journals::unfit_page, fdp_image::proofs::NextRecord::told_none))]
pub fn take_record<R: Replayed>(
    alloc: Global,
    bytes: &[u8],
    state: &mut R,
) -> Result<(), RecordFault>
    ensures config { R.config state.new ≡ R.config state.old }
    ensures taken { OnOk result (IsTaken R.fits (R.config state.old) bytes.now (R.reading state.old) (R.reading state.new)) }
    ensures bad { result ≡ Err RecordFault.Bad → told_by bytes.now ≡ None }
    ensures unfit { result ≡ Err RecordFault.Unfit → IsUnfit R.fits (R.config state.old) bytes.now (R.reading state.old) }
    ensures refused { OnErr result (state.new ≡ state.old) }
{
    match Change::decode(alloc, bytes) {
        Ok((change, totals)) => match state.apply(alloc, change, totals) {
            Ok(()) => Ok(()),
            Err(Refusal::Unfit) => Err(RecordFault::Unfit),
            Err(Refusal::NoMemory) => Err(RecordFault::NoMemory),
        },
        Err(BadRecord::Kind) => Err(RecordFault::Bad),
        Err(BadRecord::Length) => Err(RecordFault::Bad),
        Err(BadRecord::Range) => Err(RecordFault::Bad),
        Err(BadRecord::NoMemory) => Err(RecordFault::NoMemory),
    }
}
