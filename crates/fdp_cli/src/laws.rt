ghost use Rattle.std.specs.Prelude.{String, ◌≡◌, ℕ, IsTrue, List, [], ◌∷◌, length};
ghost use Rattle.std.specs.declared.alloc.Global.{Global};
ghost use Rattle.fdp_audit.specs.Audit.{IsAudited};
ghost use Rattle.fdp_base.specs.declared.command.Command.{Command};
ghost use Rattle.fdp_base.specs.declared.config.DriveConfig.{DriveConfig};
ghost use Rattle.fdp_base.specs.declared.entry.Entry.{Entry};
ghost use Rattle.fdp_base.specs.Placement.{geometry_of};
ghost use Rattle.fdp_cli.specs.GoesOn.{GoesOnFrom};
ghost use Rattle.fdp_cli.specs.Loading.{of_opening};
ghost use Rattle.fdp_cli.specs.Session.{HasOwnMoments, IsRecordOf};
ghost use Rattle.fdp_cli.specs.Top.{text_of};
ghost use Rattle.fdp_drive.specs.fdp_loading.Opens.{Opens};
ghost use Rattle.fdp_drive.specs.fdp_loading.Faults.{TellsFault};
ghost use Rattle.fdp_drive.specs.fdp_recovery.Taken.{HasSameKeys, IsUsedUp};
ghost use Rattle.fdp_drive.specs.fdp_recovery.declared.opened.OpenFault.{OpenFault};
ghost use Rattle.fdp_finding.specs.declared.asked.Form.TheVariants as forms;
ghost use Rattle.fdp_finding.specs.Faults.{status_of};
ghost use Rattle.fdp_finding.specs.Wanted.{Finds, session};
ghost use Rattle.fdp_flash.specs.declared.cell.Cell.{Cell};
ghost use Rattle.fdp_flash.specs.FlashState.{IsWellFormed};
ghost use Rattle.fdp_image.specs.StandsFor.{StandsFor};
ghost use Rattle.fdp_io.specs.Bench.{BenchState, IsMadeFlash};
ghost use Rattle.fdp_rules.specs.History.{Found};

use fdp_flash::Flash;

/// A run over the cells that another put back goes on from the state, the sums and the events of the beginning of that history for which
/// they stand.
pub fn a_second_run_goes_on()
    ensures { (c : DriveConfig) (f found : Found) (cells : List Cell) (kept : List Entry) → StandsFor c f cells kept → StandsFor c found cells [] → GoesOnFrom c f kept found }
{}

/// Over the cells that another run left, which open, a run with the configuration of their drive, or with another value of a key that is not
/// compared, is refused with status 4 only where they are used up.
pub fn a_second_run_opens()
    ensures { (c d : DriveConfig) (cells : List Cell) (fault : OpenFault) → (opens : Opens c cells) → HasSameKeys c d → TellsFault d (geometry_of d) cells fault → status_of (of_opening fault) ≡ 4 → IsUsedUp d cells opens.reading }
{}

/// What `record` prints whole of a run on a new image is audited yes, over a flash that tells what it holds: with as many entries as the history has. Where a
/// reply tells of a media error, each call of the flash has to have a moment of its own.
pub fn a_record_is_audited_yes<F: Flash>()
    ensures { (bench : BenchState) (words : List (String Global)) (c : DriveConfig) (image : List ℕ) (traces : List (List Command)) (handed given : F) (f : Found) (es : List Entry)
        → IsTrue bench.told → Finds bench words (session forms.Record c image traces) → IsWellFormed (F.state handed) → IsMadeFlash (geometry_of c) (F.state handed)
        → IsRecordOf F.state c traces handed given f es → HasOwnMoments (F.state given) es → IsAudited c (text_of forms.Record c f (length traces) es ∷ []) (length es) }
{}
