ghost use Rattle.std.specs.Prelude.{[], ◌≡◌, IsTrue, List, None, Some, is_some, take, ℕ};
ghost use Rattle.std.specs.List.{list_all};
ghost use Rattle.fdp_base.specs.declared.config.DriveConfig.{DriveConfig};
ghost use Rattle.fdp_base.specs.Config.{IsValidConfig};
ghost use Rattle.fdp_base.specs.Placement.{geometry_of};
ghost use Rattle.fdp_flash.specs.declared.cell.Cell.{Cell};
ghost use Rattle.fdp_found.specs.Beginning.{CanBegin};
ghost use Rattle.fdp_found.specs.Finding.{found_in};
ghost use Rattle.fdp_image.specs.Areas.{current_area, data_pages};
ghost use Rattle.fdp_image.specs.Checkpoint.{reading_of_state};
ghost use Rattle.fdp_image.specs.Reading.{Reading};
ghost use Rattle.fdp_image.specs.Reads.{is_blank, reads_as};
ghost use Rattle.fdp_image.specs.StandsFor.{IsFoundIn, StandsFor};
ghost use Rattle.fdp_image.specs.Valid.{GoOneWay, IsValid, state_in};
ghost use Rattle.fdp_opening.specs.fdp_recovery.Opened.{CanGoOn};
ghost use Rattle.fdp_rules.specs.History.{first_state, fresh};
ghost use Rattle.fdp_snapshot.specs.declared.state.State.{State};

/// A run can begin with each state with which an opening answers.
pub fn loaded_states_can_begin()
    ensures { (c : DriveConfig) (s : State) (area epoch : ℕ) → CanGoOn c s area epoch → CanBegin (reading_of_state s) }
{}

/// What is found in an image is the state that the image gives; so the image stands for a history that begins with it and has no entry
/// yet.
pub fn images_are_found()
    ensures state { (c : DriveConfig) (cells : List Cell) (r : Reading) → IsValid c cells r → CanBegin r → first_state c (found_in c cells r) ≡ state_in c cells r }
    ensures stands { (c : DriveConfig) (cells : List Cell) (r : Reading) → reads_as c cells ≡ Some r → IsValid c cells r → GoOneWay c cells r → CanBegin r → StandsFor c (found_in c cells r) cells [] }
    ensures found { (c : DriveConfig) (cells : List Cell) (r : Reading) → reads_as c cells ≡ Some r → IsValid c cells r → GoOneWay c cells r → CanBegin r → IsTrue (is_some (current_area (geometry_of c) cells)) → IsFoundIn c cells (found_in c cells r) }
{}

/// The drive as its configuration makes it is found where no area is sealed and the data pages are blank.
pub fn fresh_drives_are_found()
    ensures { (c : DriveConfig) (cells : List Cell) → IsValidConfig c → current_area (geometry_of c) cells ≡ None → IsTrue (list_all is_blank (take (data_pages (geometry_of c)) cells)) → IsFoundIn c cells (fresh c) }
{}
