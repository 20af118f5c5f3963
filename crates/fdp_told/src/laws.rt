ghost use Rattle.std.specs.Prelude.{ℕ, All, Bool, List, true};
ghost use Rattle.fdp_base.specs.declared.command.Command.{Command};
ghost use Rattle.fdp_base.specs.declared.config.DriveConfig.{DriveConfig};
ghost use Rattle.fdp_base.specs.declared.entry.Entry.{Entry};
ghost use Rattle.fdp_base.specs.Config.{IsValidConfig};
ghost use Rattle.fdp_prints.specs.Told.{IsSpelled, IsTold};
ghost use Rattle.fdp_ranges.specs.Ranged.{IsRanged};
ghost use Rattle.fdp_rules.specs.History.{Found, fresh};
ghost use Rattle.fdp_rules.specs.Legal.{IsLegal};
ghost use Rattle.fdp_trace.specs.Grammar.{IsTraceOf};
ghost use Rattle.fdp_told.specs.Given.{HasGiven};
ghost use Rattle.fdp_told.specs.Spelled.{ServesSpelled};

/// The print of each entry of a legal history tells it whole, where its numbers are within their types and its command is one that a line of a trace
/// or a frame says: what its reply answers has as many bytes as its command and its status say.
pub fn legal_histories_are_told()
    ensures { (c : DriveConfig) (es : List Entry) → IsValidConfig c → IsLegal true c (fresh c) es → All IsRanged es → All (HasGiven c.block) es → All (IsTold c) es }
{}

/// A line says the command of each entry of a legal history whose queues serve traces of such commands, where its numbers are within their types.
pub fn traces_give_the_commands()
    ensures { (told : Bool) (c : DriveConfig) (f : Found) (trace : ℕ → List Command) (es : List Entry) → IsLegal told c f es → All IsRanged es → ServesSpelled c trace es → All (HasGiven c.block) es }
{}

/// Lines say each command of a trace.
pub fn traces_are_spelled()
    ensures { (text : List ℕ) (commands : List Command) → IsTraceOf text commands → All IsSpelled commands }
{}
