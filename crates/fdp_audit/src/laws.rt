ghost use Rattle.std.specs.Prelude.{List, ℕ};
ghost use Rattle.fdp_base.specs.declared.config.DriveConfig.{DriveConfig};
ghost use Rattle.fdp_base.specs.declared.entry.Entry.{Entry};
ghost use Rattle.fdp_base.specs.Geometry.{IsWithin};
ghost use Rattle.fdp_output.specs.RunOutput.{output_of};
ghost use Rattle.fdp_reader.specs.Form.{IsForm};
ghost use Rattle.fdp_rules.specs.History.{Found};

/// The output of one to as many traces as there are queues has the form by which the reader cuts a record.
pub fn outputs_have_the_form()
    ensures { (c : DriveConfig) (f : Found) (traces : ℕ) (es : List Entry) → IsWithin 1 c.queues traces → IsForm c traces (output_of c f traces es) }
{}
