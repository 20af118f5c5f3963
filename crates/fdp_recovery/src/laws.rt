ghost use Rattle.std.specs.Prelude.{◌≡◌, ℕ, List, Some};
ghost use Rattle.fdp_base.specs.declared.config.DriveConfig.{DriveConfig};
ghost use Rattle.fdp_base.specs.Placement.{geometry_of};
ghost use Rattle.fdp_flash.specs.declared.cell.Cell.{Cell};
ghost use Rattle.fdp_image.specs.Areas.{Sealed, current_area};
ghost use Rattle.fdp_image.specs.Reading.{Reading};
ghost use Rattle.fdp_image.specs.Reads.{reads_as};
ghost use Rattle.fdp_image.specs.Valid.{IsValid};
ghost use Rattle.fdp_recovery.specs.Bad.{IsBadPage};
ghost use Rattle.fdp_recovery.specs.Blocks.{AreKept};
ghost use Rattle.fdp_recovery.specs.Sound.{IsSoundArea, IsSoundImage};
ghost use Rattle.fdp_recovery.specs.Taken.{HasSameKeys, IsTakenImage};

/// What a sound area says is what the image reads as.
pub fn a_sound_area_is_what_the_image_reads_as()
    ensures { (c : DriveConfig) (cells : List Cell) (area : ℕ) (z : Sealed) (r : Reading) → current_area (geometry_of c) cells ≡ Some (area, z) → IsSoundArea c z r → reads_as c cells ≡ Some r }
{}

/// And the image reads as nothing else: its current area is sound.
pub fn what_an_image_reads_as_is_sound()
    ensures { (c : DriveConfig) (cells : List Cell) (area : ℕ) (z : Sealed) (r : Reading) → current_area (geometry_of c) cells ≡ Some (area, z) → reads_as c cells ≡ Some r → IsSoundArea c z r }
{}

/// No page serves two blocks where each block is kept on its page.
pub fn blocks_that_are_kept_stand_apart()
    ensures { (c : DriveConfig) (cells : List Cell) (r : Reading) → AreKept c cells r → (nsid lba other_nsid other_lba page : ℕ) → r.pages nsid lba ≡ Some page → r.pages other_nsid other_lba ≡ Some page → (nsid ≡ other_nsid) × (lba ≡ other_lba) }
{}

/// An image with a bad page is not sound: so an opening answers in one way alone.
pub fn an_image_with_a_bad_page_is_not_sound()
    ensures { (c : DriveConfig) (cells : List Cell) (area : ℕ) (z : Sealed) (page : ℕ) (r : Reading) → IsBadPage c cells area z page → IsSoundImage c cells z r → ⊥ }
{}

/// An image that reads as something valid is taken by an opening, with its configuration and with each other one of the same drive.
pub fn an_image_that_reads_is_taken()
    ensures { (c d : DriveConfig) (cells : List Cell) (r : Reading) → reads_as c cells ≡ Some r → IsValid c cells r → HasSameKeys c d → IsTakenImage d cells r }
{}
