ghost use Rattle.std.specs.Prelude.{List, true};
ghost use Rattle.fdp_base.specs.declared.config.DriveConfig.{DriveConfig};
ghost use Rattle.fdp_base.specs.declared.entry.Entry.{Entry};
ghost use Rattle.fdp_base.specs.Config.{IsValidConfig};
ghost use Rattle.fdp_rules.specs.History.{Found, fresh};
ghost use Rattle.fdp_rules.specs.Legal.{IsLegal};
ghost use Rattle.fdp_plain.specs.Found.{BeginsInOrder, GoesOn, found_after};

/// What a run finds after a legal history of the one before it, which began in order, has the lasting part, the sums and the
/// events that this gives, and is in order again; a fresh drive is in order.
pub fn runs_go_on()
    ensures fresh { (c : DriveConfig) → IsValidConfig c → BeginsInOrder c (fresh c) }
    ensures goes_on { (c : DriveConfig) (f : Found) (es : List Entry) → IsValidConfig c → BeginsInOrder c f → IsLegal true c f es → GoesOn c f es (found_after c f es) }
    ensures in_order { (c : DriveConfig) (f : Found) (es : List Entry) → IsValidConfig c → BeginsInOrder c f → IsLegal true c f es → BeginsInOrder c (found_after c f es) }
{}
