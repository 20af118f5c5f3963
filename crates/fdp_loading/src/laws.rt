ghost use Rattle.std.specs.Prelude.{List};
ghost use Rattle.fdp_base.specs.declared.config.DriveConfig.{DriveConfig};
ghost use Rattle.fdp_base.specs.declared.entry.Entry.{Entry};
ghost use Rattle.fdp_flash.specs.declared.cell.Cell.{Cell};
ghost use Rattle.fdp_image.specs.StandsFor.{StandsFor};
ghost use Rattle.fdp_loading.specs.Opens.{Opens};
ghost use Rattle.fdp_rules.specs.History.{Found};

/// An image that stands for a history opens.
pub fn an_image_that_stands_for_a_history_opens()
    ensures { (c : DriveConfig) (f : Found) (cells : List Cell) (es : List Entry) → StandsFor c f cells es → Opens c cells }
{}
