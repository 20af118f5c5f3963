ghost use Rattle.std.specs.Prelude.{[], ◌&&◌, ◌≡◌, ◌∷◌, ◌<◌, Bool, IfSome, List, None, Option, Some, length, nat_lt, slice_index, unwrap_or, ℕ};
ghost use Rattle.fdp_base.specs.declared.command.Command.TheVariants as commands;
ghost use Rattle.fdp_base.specs.declared.command.Create.{Create};
ghost use Rattle.fdp_base.specs.declared.command.Dealloc.{Dealloc};
ghost use Rattle.fdp_base.specs.declared.command.Delete.{Delete};
ghost use Rattle.fdp_base.specs.declared.command.HandleUpdate.{HandleUpdate};
ghost use Rattle.fdp_base.specs.declared.command.SetFdp.{SetFdp};
ghost use Rattle.fdp_base.specs.declared.command.Write.{Write};
ghost use Rattle.fdp_base.specs.declared.command.Zero.{Zero};
ghost use Rattle.fdp_base.specs.declared.config.DriveConfig.{DriveConfig};
ghost use Rattle.fdp_base.specs.declared.entry.Entry.{Entry};
ghost use Rattle.fdp_base.specs.declared.entry.Spot.{Spot};
ghost use Rattle.fdp_base.specs.Config.{IsValidConfig};
ghost use Rattle.fdp_history.specs.Orderly.{IsOrderly};
ghost use Rattle.fdp_readings.specs.Changes.{AreItsPages, ArePagesOfUnit, FitsDrawn, change_of_write};
ghost use Rattle.fdp_records.specs.declared.change.Change.TheVariants as changes;
ghost use Rattle.fdp_records.specs.declared.change.UnitPages.{UnitPages};
ghost use Rattle.fdp_rules.specs.Effect.{chosen_handles, lowest_free};
ghost use Rattle.fdp_rules.specs.PlainState.{Going};
ghost use Rattle.fdp_rules.specs.Point.{Point};
ghost use Rattle.fdp_rules.specs.Refusal.{refusal_of};
ghost use Rattle.fdp_rules.specs.Room.{handles_of};
ghost use Rattle.fdp_rules.specs.Step.{IsHandle, MaySucceed};

/// Each change that saves an entry fits what is drawn before it: that of a write which may succeed, of a command that is not refused, of a
/// move between pages of data units, and of a handle of a group.
pub fn saved_changes_fit()
    ensures write { (c : DriveConfig) (p : Point) (queue : ℕ) (w : Write) (g : Going) (spots : List Spot) → IsOrderly c p → p.state.going queue ≡ Some g → g.command ≡ commands.Write w → MaySucceed c p g → AreItsPages p g spots → (e : Entry) → FitsDrawn c p (change_of_write c w g spots) e }
    ensures zero { (c : DriveConfig) (p : Point) → IsOrderly c p → (e : Entry) (x : Zero) → refusal_of c p (commands.Zero x) ≡ None → FitsDrawn c p (changes.Clear x.nsid (record { slba = x.slba; length = x.count } ∷ [])) e }
    ensures dealloc { (c : DriveConfig) (p : Point) → IsOrderly c p → (e : Entry) (x : Dealloc) → refusal_of c p (commands.Dealloc x) ≡ None → FitsDrawn c p (changes.Clear x.nsid x.ranges) e }
    ensures update { (c : DriveConfig) (p : Point) → IsOrderly c p → (e : Entry) (x : HandleUpdate) (closed : ℕ) → refusal_of c p (commands.Update x) ≡ None → FitsDrawn c p (changes.Update x.nsid closed x.pids) e }
    ensures create { (c : DriveConfig) (p : Point) (x : Create) (given : Bool) (e : Entry) → IsValidConfig c → IsOrderly c p → refusal_of c p (commands.Create x) ≡ None → FitsDrawn c p (changes.Create (unwrap_or (lowest_free p.state) 0) x.size given (chosen_handles x.list)) e }
    ensures delete { (c : DriveConfig) (p : Point) → IsOrderly c p → (e : Entry) (x : Delete) → refusal_of c p (commands.Delete x) ≡ None → FitsDrawn c p (changes.Delete x.nsid) e }
    ensures placement { (c : DriveConfig) (p : Point) → IsOrderly c p → (e : Entry) (x : SetFdp) (generation : ℕ) → refusal_of c p (commands.SetFdp x) ≡ None → FitsDrawn c p (changes.SetFdp x.enable x.index generation) e }
    ensures kinds { (c : DriveConfig) (p : Point) → IsOrderly c p → (e : Entry) (nsid handle mask : ℕ) (on : Bool) → IsValidConfig c → mask < 64 → FitsDrawn c p (changes.SetEvents (slice_index (handles_of p.state nsid) handle) on mask) e }
    ensures moved { (c : DriveConfig) (p : Point) (victim first : UnitPages) (second : Option UnitPages) (handles : List ℕ) (e : Entry) → IsOrderly c p → ArePagesOfUnit c victim → ArePagesOfUnit c first → IfSome second (ArePagesOfUnit c) → FitsDrawn c p (changes.Moved victim first second handles) e }
    ensures shut { (c : DriveConfig) (p : Point) → IsOrderly c p → (e : Entry) (rg ruh : ℕ) → IsHandle c p rg ruh → FitsDrawn c p (changes.Shut rg ruh) e }
{}
