ghost use Rattle.std.specs.Prelude.{[], ◌≡◌, List, None, option_map, ℕ};
ghost use Rattle.fdp_base.specs.declared.config.DriveConfig.{DriveConfig};
ghost use Rattle.fdp_base.specs.declared.entry.Spot.{Spot};
ghost use Rattle.fdp_base.specs.Config.{IsValidConfig};
ghost use Rattle.fdp_base.specs.Placement.{geometry_of};
ghost use Rattle.fdp_flash.specs.declared.cell.Cell.{Cell};
ghost use Rattle.fdp_flash.specs.Cells.{IsBlankUnit};
ghost use Rattle.fdp_found.specs.Beginning.{CanBegin};
ghost use Rattle.fdp_locations.specs.Held.{pages_held};
ghost use Rattle.fdp_found.specs.Finding.{found_in};
ghost use Rattle.fdp_found.specs.Opened.{AreOpened, led_in};
ghost use Rattle.fdp_image.specs.Reading.{Reading, spot_of};
ghost use Rattle.fdp_image.specs.Valid.{IsValid};
ghost use Rattle.fdp_locations.specs.Located.{AreLed, AreUnitsOf, LeadsTo};
ghost use Rattle.fdp_locations.specs.Stored.{HoldsWritten};
ghost use Rattle.fdp_locations.specs.fdp_pages.PageTables.{PageTables};
ghost use Rattle.fdp_pointers.specs.Facts.{Page};
ghost use Rattle.fdp_pointers.specs.Pointers.{Pointer.of_block};
ghost use Rattle.fdp_rules.specs.History.{point_of};
ghost use Rattle.fdp_rules.specs.Step.{IsDataUnit};

/// The tables that an opening makes stand for the point at which the run begins: each block leads to its page, which it owns and which holds
/// it; the cells hold what they held; and the units and handles are those of the state.
pub fn opened_tables_are_led()
    ensures led { (c : DriveConfig) (cells : List Cell) (r : Reading) (t : PageTables) → IsValidConfig c → IsValid c cells r → CanBegin r → AreOpened c cells r t → AreLed c (point_of c (found_in c cells r) []) (pages_held c cells) (led_in c cells r) t }
    ensures leads { (c : DriveConfig) (cells : List Cell) (r : Reading) (nsid lba : ℕ) → IsValidConfig c → IsValid c cells r → option_map (λ (y : Page). y.spot) (led_in c cells r (of_block nsid lba)) ≡ option_map (spot_of c) (r.pages nsid lba) }
    ensures holds { (c : DriveConfig) (cells : List Cell) (r : Reading) (t : PageTables) → AreOpened c cells r t → HoldsWritten (geometry_of c) cells (pages_held c cells) t.units }
    ensures units { (c : DriveConfig) (cells : List Cell) (r : Reading) (t : PageTables) → AreOpened c cells r t → AreUnitsOf c (point_of c (found_in c cells r) []).state t }
{}

/// Where the data units are blank no page of theirs holds anything, as a run over a fresh drive begins.
pub fn blank_pages_hold_nothing()
    ensures { (c : DriveConfig) (cells : List Cell) → ((unit : ℕ) → IsDataUnit c unit → IsBlankUnit (geometry_of c) cells unit) → (spot : Spot) → pages_held c cells spot ≡ None }
{}
