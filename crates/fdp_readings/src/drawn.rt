ghost use Rattle.std.specs.Prelude.{◌≡◌, ◌^◌, ◌<◌, List, Option, Some, option_map, ℕ};
ghost use Rattle.fdp_base.specs.declared.config.DriveConfig.{DriveConfig};
ghost use Rattle.fdp_base.specs.declared.entry.Entry.{Entry};
ghost use Rattle.fdp_base.specs.declared.entry.Spot.{Spot};
ghost use Rattle.fdp_base.specs.Config.{IsValidConfig};
ghost use Rattle.fdp_base.specs.Placement.{geometry_of};
ghost use Rattle.fdp_flash.specs.declared.cell.Cell.{Cell};
ghost use Rattle.fdp_flash.specs.Layout.{page_number};
ghost use Rattle.fdp_history.specs.Listed.{IsListed};
ghost use Rattle.fdp_history.specs.Orderly.{IsOrderly};
ghost use Rattle.fdp_history.specs.Standing.{IsStanding};
ghost use Rattle.fdp_image.specs.Reading.{spot_of};
ghost use Rattle.fdp_image.specs.StandsFor.{Says};
ghost use Rattle.fdp_image.specs.Valid.{IsValid};
ghost use Rattle.fdp_locations.specs.Located.{AreLed, next_in};
ghost use Rattle.fdp_locations.specs.Stored.{HoldsWritten};
ghost use Rattle.fdp_locations.specs.Written.{Written};
ghost use Rattle.fdp_locations.specs.fdp_pages.PageTables.{PageTables};
ghost use Rattle.fdp_pointers.specs.Facts.{IsTableOf, Page};
ghost use Rattle.fdp_pointers.specs.Pointers.{Behind, Pointer.of_block};
ghost use Rattle.fdp_readings.specs.Drawn.{drawn};
ghost use Rattle.fdp_readings.specs.Holding.{HoldsBlocks};
ghost use Rattle.fdp_rules.specs.History.{Found, point_of};
ghost use Rattle.fdp_rules.specs.Point.{Point};

/// The page of each block is the one to which its pointer leads, by any table that stands for the point.
pub fn drawn_readings_tell_the_table()
    ensures { (c : DriveConfig) (p : Point) (pages : ℕ → ℕ) (at : Behind Page) → IsTableOf c p pages at → (nsid lba : ℕ) → (drawn c p).pages nsid lba ≡ option_map (λ (y : Page). page_number (geometry_of c) y.spot) (at (of_block nsid lba)) }
{}

/// The page of each block is one that was used: it lies before the next page of its unit.
pub fn drawn_pages_were_used()
    ensures { (c : DriveConfig) (p : Point) (written : Spot → Option Written) (at : Behind Page) (t : PageTables) → IsStanding c p → AreLed c p written at t → (nsid lba page : ℕ) → (drawn c p).pages nsid lba ≡ Some page → (spot_of c page).page < next_in t.units (spot_of c page).unit }
{}

/// Where the pages of a drive are led and its cells hold what was written, the page of each block holds it, with a spare that names
/// it.
pub fn led_pages_hold_their_blocks()
    ensures { (c : DriveConfig) (p : Point) (written : Spot → Option Written) (at : Behind Page) (t : PageTables) (cells : List Cell) → IsValidConfig c → IsOrderly c p → IsStanding c p → IsListed c p.state → p.state.generation < 2 ^ 32 → AreLed c p written at t → HoldsWritten (geometry_of c) cells written t.units → HoldsBlocks c p cells }
{}

/// What a point of a history draws is valid over cells that hold its blocks, and says what the history gives: an image that reads so
/// stands for the history.
pub fn drawn_readings_are_valid()
    ensures valid { (c : DriveConfig) (p : Point) (cells : List Cell) → IsOrderly c p → IsStanding c p → IsListed c p.state → HoldsBlocks c p cells → IsValid c cells (drawn c p) }
    ensures says { (c : DriveConfig) (found : Found) (es : List Entry) (cells : List Cell) → IsOrderly c (point_of c found es) → IsStanding c (point_of c found es) → HoldsBlocks c (point_of c found es) cells → Says c found cells es (drawn c (point_of c found es)) }
{}
