ghost use Rattle.std.specs.Prelude.{List, false, length, ◌<◌, ◌≡◌};
ghost use Rattle.fdp_base.specs.Geometry.{area_pages};
ghost use Rattle.fdp_flash.specs.FlashState.{Call};
ghost use Rattle.fdp_relocation.specs.fdp_journal.JournalState.{JournalState, next_in};
ghost use Rattle.fdp_relocation.specs.fdp_saving.declared.saved.Saved.{Saved};
ghost use Rattle.fdp_relocation.specs.fdp_saving.Calls.{AreCallsOfSaving};
ghost use Rattle.fdp_snapshot.specs.declared.state.Summary.{Summary};

/// While nothing is in doubt and the system area in use has a blank page, a saving is one call of the flash: the program of its record.
pub fn a_saving_is_one_call()
    ensures { (s : JournalState) (summary : Summary) (answer : Saved) (calls : List Call) → s.in_doubt ≡ false → next_in s < area_pages s.geometry → AreCallsOfSaving s summary answer calls → length calls ≡ 1 }
{}
