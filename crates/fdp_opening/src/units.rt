//! The units that an opening finds used.

ghost use Rattle.std.specs.Prelude.{◌≡◌, ◌<◌, not, true, false, IsTrue, IfOk, length};
ghost use Rattle.fdp_recovery.specs.fdp_areas.Looking.{Ends};
ghost use Rattle.fdp_base.specs.Config.{IsInRange};
ghost use Rattle.fdp_base.specs.Geometry.{IsValidGeometry, data_units};
ghost use Rattle.fdp_base.specs.Placement.{geometry_of};
ghost use Rattle.fdp_flash.specs.OnlyReads.{ReadsOnly};
ghost use Rattle.fdp_image.specs.Areas.{data_pages};
ghost use Rattle.fdp_image.specs.Roomy.{is_blank_unit};
ghost use Rattle.fdp_pages.specs.Finding.{FindsUsed};
ghost use Rattle.fdp_units.specs.DataUnits.{is_free};
ghost use Rattle.fdp_units.specs.UnitTable.{IsUnit, state_at};
ghost use Rattle.fdp_opening.specs.Walking.{AreUnitsFoundTo, AreUnseen};

use fdp_base::{DriveConfig, Geometry};
use fdp_flash::{Flash, Seen};
use fdp_pages::Pages;
use fdp_recovery::{LookFailed, look_at_data};

/// Looks at the pages of each data unit, up to the first that is not blank: a unit with such a page is used.
pub fn find_units<F: Flash>(
    flash: &mut F,
    config: &DriveConfig,
    pages: &mut Pages,
    page: &mut [u8],
) -> Result<(), LookFailed>
    requires config { IsInRange config.now }
    requires cut { (F.state flash.old).geometry ≡ geometry_of config.now }
    requires room { length page.old ≡ (F.state flash.old).geometry.block }
    requires unseen { AreUnseen config.now pages.old }
    ensures looks { ReadsOnly (data_pages (geometry_of config.now)) (F.state flash.old) (F.state flash.new) }
    ensures found { IfOk result (λ u. AreUnitsFoundTo config.now (F.state flash.new) (data_units (geometry_of config.now)) pages.old pages.new) }
    ensures ends { Ends (F.state flash.old) (F.state flash.new) result }
{
    let geometry = config.geometry();
    for unit in 0..geometry.data_units() {
        match is_used(flash, &geometry, unit, page) {
            Ok(used) => note(pages, unit, used),
            Err(failed) => return Err(failed),
        }
    }
    Ok(())
}

/// Notes of a free unit whether it was found used.
fn note(pages: &mut Pages, unit: u32, used: bool)
    requires unit { IsUnit pages.old.units unit }
    requires free { IsTrue (is_free (state_at pages.old.units unit)) }
    ensures used { used ≡ true → FindsUsed pages.old pages.new unit }
    ensures unused { used ≡ false → pages.new ≡ pages.old }
{
    if used {
        pages.find_used(unit);
    }
}

/// Whether a page of a data unit is not blank: looks at them up to that one.
fn is_used<F: Flash>(
    flash: &mut F,
    geometry: &Geometry,
    unit: u32,
    page: &mut [u8],
) -> Result<bool, LookFailed>
    requires geometry { geometry.now ≡ (F.state flash.old).geometry }
    requires valid { IsValidGeometry geometry.now }
    requires unit { unit < data_units geometry.now }
    requires room { length page.old ≡ geometry.now.block }
    ensures looks { ReadsOnly geometry.now.unit_pages (F.state flash.old) (F.state flash.new) }
    ensures told { IsTrue (F.state flash.old).told → IfOk result (λ used. used ≡ not (is_blank_unit geometry.now (F.state flash.old).cells unit)) }
    ensures ends { Ends (F.state flash.old) (F.state flash.new) result }
{
    let mut spare = [0; 32];
    for at in 0..geometry.unit_pages {
        let number = unit * geometry.unit_pages + at;
        match look_at_data(flash, geometry, number, &mut spare, page) {
            Seen::Blank => {}
            Seen::Whole => return Ok(true),
            Seen::Torn => return Ok(true),
            Seen::Failed => {
                return Err(LookFailed {
                    moment: flash.moment(),
                });
            }
        }
    }
    Ok(false)
}
