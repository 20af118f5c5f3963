ghost use Rattle.std.specs.Prelude.{◌≡◌, ◌^◌, ◌<◌, ◌++◌, ◌∷◌, [], List, length, map, ℕ};
ghost use Rattle.fdp_base.specs.declared.entry.Entry.{Entry};
ghost use Rattle.fdp_base.specs.Records.{carrying};
ghost use Rattle.fdp_gauge.specs.Passes.{snapshot_of};
ghost use Rattle.fdp_rules.specs.History.{Found};
ghost use Rattle.fdp_rules.specs.Seats.{mark_of};
ghost use Rattle.fdp_workers.specs.Marks.{counts_of, entry_in, mark_in, marked_after, marked_of};
ghost use Rattle.fdp_workers.specs.Queues.{Has, Progress};
ghost use Rattle.fdp_workers.specs.Run.{IsHistory, OpensFirst, Run};

/// A history with its marks is a record: an entry more adds one item more, and leaves those before it.
pub fn histories_are_records()
    ensures record_is { (run : Run) (es : List Entry) → OpensFirst [] es → length es < 2 ^ 40 → IsHistory run entry_in mark_in (marked_of run.found es) }
    ensures more { (f : Found) (es : List Entry) (e : Entry) → marked_of f (es ++ e ∷ []) ≡ marked_of f es ++ (e, mark_of f es e) ∷ [] }
{}

/// The snapshot of its marks has its length and its sums.
pub fn snapshots_have_the_sums()
    ensures { (f : Found) (es : List Entry) → snapshot_of (map mark_in (marked_of f es)) ≡ counts_of es }
{}

/// What a history has of a queue, its completions and receipts, its starts and how far its write has come, depends on the entries alone
/// that carry the number of the queue: entries behind it that carry others leave all of that.
pub fn entries_of_others_leave_a_queue()
    ensures { (run : Run) (queue : ℕ) (p : Progress) (es new : List Entry) → OpensFirst es new → carrying mark_in queue (marked_after run.found es new) ≡ [] → Has run queue p es → Has run queue p (es ++ new) }
{}
