ghost use Rattle.std.specs.Prelude.{◌≡◌, ◌<◌, IsTrue, IfOk, length};
ghost use Rattle.fdp_base.specs.Geometry.{IsValidGeometry};
ghost use Rattle.fdp_flash.specs.Layout.{IsIn, page_number};
ghost use Rattle.fdp_image.specs.Areas.{data_pages};
ghost use Rattle.fdp_areas.specs.Looking.{Ends, EndsLook, Shows};
ghost use Rattle.fdp_flash.specs.OnlyReads.{ReadsOnly};
ghost use Rattle.fdp_areas.specs.Data.{TellsUsed};

use crate::seal::LookFailed;
use fdp_base::{Geometry, Spot};
use fdp_flash::{Flash, Seen};

/// The first data page that is not blank, if there is one: looks at the data pages in order, up to that one. `page` is room for the
/// bytes of a page.
pub fn find_used<F: Flash>(flash: &mut F, page: &mut [u8]) -> Result<Option<u32>, LookFailed>
    requires { length page.old ≡ (F.state flash.old).geometry.block }
    ensures looks { ReadsOnly (data_pages (F.state flash.old).geometry) (F.state flash.old) (F.state flash.new) }
    ensures found { IsTrue (F.state flash.old).told → IfOk result (TellsUsed (data_pages (F.state flash.old).geometry) (F.state flash.old).cells) }
    ensures ends { Ends (F.state flash.old) (F.state flash.new) result }
{
    let geometry = flash.geometry();
    let mut spare = [0; 32];
    for number in 0..data_pages(&geometry) {
        match look_at_data(flash, &geometry, number, &mut spare, page) {
            Seen::Blank => {}
            Seen::Whole => return Ok(Some(number)),
            Seen::Torn => return Ok(Some(number)),
            Seen::Failed => {
                return Err(LookFailed {
                    moment: flash.moment(),
                });
            }
        }
    }
    Ok(None)
}

/// The pages of the data units.
fn data_pages(geometry: &Geometry) -> u32
    requires { IsValidGeometry geometry.now }
    ensures { result ≡ data_pages geometry.now }
{
    geometry.data_units() * geometry.unit_pages
}

/// Looks at a data page, by its number. The buffers count only where it is whole.
pub fn look_at_data<F: Flash>(
    flash: &mut F,
    geometry: &Geometry,
    number: u32,
    spare: &mut [u8; 32],
    page: &mut [u8],
) -> Seen
    requires geometry { geometry.now ≡ (F.state flash.old).geometry }
    requires valid { IsValidGeometry geometry.now }
    requires number { number < data_pages geometry.now }
    requires room { length page.old ≡ geometry.now.block }
    ensures looks { ReadsOnly 1 (F.state flash.old) (F.state flash.new) }
    ensures shown { IsTrue (F.state flash.old).told → Shows (F.state flash.old).cells number spare.new page.new result }
    ensures ends { EndsLook (F.state flash.old) (F.state flash.new) result }
{
    let at = spot_of_page(geometry, number);
    flash.look(at, spare, page)
}

/// Where a data page stands, by its number.
fn spot_of_page(geometry: &Geometry, number: u32) -> Spot
    requires geometry { IsValidGeometry geometry.now }
    requires number { number < data_pages geometry.now }
    ensures place { page_number geometry.now result ≡ number }
    ensures inside { IsIn geometry.now result }
{
    Spot {
        unit: number / geometry.unit_pages,
        page: number % geometry.unit_pages,
    }
}
