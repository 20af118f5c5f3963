ghost use Rattle.fdp_book.specs.Updating.{CanSet, SetsTables};

use crate::tables::Tables;
use fdp_base::DriveConfig;

/// The pages know of another placement setting. It takes a step for each handle of each group.
pub(super) fn set_placement(tables: &mut Tables, config: &DriveConfig, enable: bool, index: u8)
    requires { CanSet config.now tables.old index }
    ensures { SetsTables config.now enable index tables.old tables.new }
{
    tables.pages.set_classes(config.classes(enable, index));
}
