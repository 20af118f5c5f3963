//! The map of a drive that was found.

ghost use Rattle.std.specs.Prelude.{◌≡◌, ℕ, option_map};
ghost use Rattle.fdp_base.specs.Config.{IsInRange};
ghost use Rattle.fdp_base.specs.Placement.{geometry_of};
ghost use Rattle.fdp_image.specs.Checkpoint.{reading_of_state};
ghost use Rattle.fdp_image.specs.Reading.{size_in as size_by};
ghost use Rattle.fdp_map.specs.MapTable.{mapped_at, size_in};
ghost use Rattle.fdp_map.specs.PageLists.{placed_on, table_of};
ghost use Rattle.fdp_recovery.specs.Blocks.{StandApart};
ghost use Rattle.fdp_recovery.specs.fdp_state.Loaded.{IsDriveState};

use fdp_base::DriveConfig;
use fdp_map::Map;
use fdp_snapshot::{State, Summary};

/// Takes a state that was found apart: its map, which takes over its lists, and the rest of it. It takes no memory, and counts the blocks.
pub fn take_map(config: &DriveConfig, state: State) -> (Summary, Map)
    requires config { IsInRange config.now }
    requires state { IsDriveState config.now state }
    requires blocks { StandApart config.now (reading_of_state state) }
    ensures summary { result.0 ≡ state.summary }
    ensures map { result.1 ≡ table_of (geometry_of config.now) state.pages }
    ensures sizes { (nsid : ℕ) → size_in result.1 nsid ≡ size_by (reading_of_state state) nsid }
    ensures places { (nsid lba : ℕ) → mapped_at result.1 nsid lba ≡ option_map (placed_on (geometry_of config.now)) ((reading_of_state state).pages nsid lba) }
{
    let State { summary, pages } = state;
    let map = Map::of_pages(pages.into_vec(), config.geometry());
    (summary, map)
}
