ghost use Rattle.std.specs.Prelude.{[], ◌&&◌, ◌+◌, ◌==◌, ◌≡◌, ◌∷◌, IsTrue, length, nat_lt, slice_index, unwrap_or, ℕ};
ghost use Rattle.std.specs.List.{list_any};
ghost use Rattle.fdp_base.specs.declared.command.Command.TheVariants as commands;
ghost use Rattle.fdp_base.specs.declared.command.Create.{Create};
ghost use Rattle.fdp_base.specs.declared.command.Dealloc.{Dealloc};
ghost use Rattle.fdp_base.specs.declared.command.Delete.{Delete};
ghost use Rattle.fdp_base.specs.declared.command.SetEvents.{SetEvents};
ghost use Rattle.fdp_base.specs.declared.command.SetFdp.{SetFdp};
ghost use Rattle.fdp_base.specs.declared.command.HandleUpdate.{HandleUpdate};
ghost use Rattle.fdp_base.specs.declared.command.Zero.{Zero};
ghost use Rattle.fdp_base.specs.declared.config.DriveConfig.{DriveConfig};
ghost use Rattle.fdp_base.specs.declared.entry.Reply.{Reply};
ghost use Rattle.fdp_base.specs.declared.event.EventKind.{EventKind};
ghost use Rattle.fdp_base.specs.EventCodes.{kind_code};
ghost use Rattle.fdp_history.specs.Orderly.{IsOrderly};
ghost use Rattle.fdp_image.specs.CheckpointRows.{has_kind};
ghost use Rattle.fdp_readings.specs.Changes.{Saves, TellsClosed, completed};
ghost use Rattle.fdp_records.specs.declared.change.Change.TheVariants as changes;
ghost use Rattle.fdp_rules.specs.Effect.{chosen_handles, lowest_free};
ghost use Rattle.fdp_rules.specs.Point.{Point};
ghost use Rattle.fdp_rules.specs.Room.{handles_of};

/// The changes that save the other commands, where these take effect: a zeroing clears one range, a deallocation its ranges; an update tells
/// of each identifier whether it closed a unit; a namespace is created with the lowest free identifier and the handles that were chosen, or deleted; placement is set in
/// the next generation; the kinds of event of a mask are kept for a handle, or no longer.
pub fn saved_commands_are_drawn()
    ensures zero { (c : DriveConfig) (p : Point) (queue number : ℕ) (x : Zero) (reply : Reply) (moment : ℕ) → IsTrue reply.applied → Saves c p (changes.Clear x.nsid (record { slba = x.slba; length = x.count } ∷ [])) (completed queue number (commands.Zero x) reply moment) }
    ensures dealloc { (c : DriveConfig) (p : Point) (queue number : ℕ) (x : Dealloc) (reply : Reply) (moment : ℕ) → IsTrue reply.applied → IsTrue x.deallocate → Saves c p (changes.Clear x.nsid x.ranges) (completed queue number (commands.Dealloc x) reply moment) }
    ensures update { (c : DriveConfig) (p : Point) (queue number : ℕ) (x : HandleUpdate) (reply : Reply) (moment closed : ℕ) → IsOrderly c p → IsTrue reply.applied → TellsClosed c p.state x.nsid closed 0 p.state.references x.pids → Saves c p (changes.Update x.nsid closed x.pids) (completed queue number (commands.Update x) reply moment) }
    ensures create { (c : DriveConfig) (p : Point) (queue number : ℕ) (x : Create) (reply : Reply) (moment : ℕ) → IsOrderly c p → IsTrue reply.applied → Saves c p (changes.Create (unwrap_or (lowest_free p.state) 0) x.size (x.given && nat_lt 0 (length x.list)) (chosen_handles x.list)) (completed queue number (commands.Create x) reply moment) }
    ensures delete { (c : DriveConfig) (p : Point) (queue number : ℕ) (x : Delete) (reply : Reply) (moment : ℕ) → IsTrue reply.applied → Saves c p (changes.Delete x.nsid) (completed queue number (commands.Delete x) reply moment) }
    ensures placement { (c : DriveConfig) (p : Point) (queue number : ℕ) (x : SetFdp) (reply : Reply) (moment : ℕ) → IsTrue reply.applied → Saves c p (changes.SetFdp x.enable x.index (p.state.generation + 1)) (completed queue number (commands.SetFdp x) reply moment) }
    ensures kinds { (c : DriveConfig) (p : Point) (queue number : ℕ) (x : SetEvents) (reply : Reply) (moment mask : ℕ) → IsTrue reply.applied → ((kind : EventKind) → has_kind mask kind ≡ list_any (λ code. code == kind_code kind) x.types) → Saves c p (changes.SetEvents (slice_index (handles_of p.state x.nsid) x.handle) x.enable mask) (completed queue number (commands.SetEvents x) reply moment) }
{}
