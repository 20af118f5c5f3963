ghost use Rattle.std.specs.Prelude.{◌≡◌, ◌⊎◌, ◌-◌, ◌≤◌, [], ◌∷◌, All, ℕ, List, slice_index_or, true};
ghost use Rattle.fdp_base.specs.declared.config.DriveConfig.{DriveConfig};
ghost use Rattle.fdp_base.specs.declared.entry.Entry.{Entry};
ghost use Rattle.fdp_base.specs.declared.entry.Entry.TheVariants as entries;
ghost use Rattle.fdp_base.specs.declared.limits.TheConstants.{MOST_TRACE_COMMANDS};
ghost use Rattle.fdp_base.specs.Geometry.{IsBlockSize, IsWithin};
ghost use Rattle.fdp_rules.specs.History.{Found, point_of};
ghost use Rattle.fdp_rules.specs.Legal.{IsLegal};
ghost use Rattle.fdp_history.specs.Orderly.{IsOrderly};
ghost use Rattle.fdp_make.specs.Load.{CanBeServed, make_trace, make_traces};
ghost use Rattle.fdp_make.specs.Served.{FindsWholeBlocks, ServesLoad};
ghost use Rattle.fdp_make.specs.Summary.{same_blocks, unrefuted_blocks};

/// In a history of the generated load, over a flash that tells what it holds, a block that its queue had not written reads as the
/// run found it: no other queue writes there. So it need not be known what the run found.
pub fn unwritten_blocks_read_as_found()
    ensures { (c : DriveConfig) (f : Found) (es : List Entry) (number : ℕ) → IsBlockSize c.block → FindsWholeBlocks c f → IsLegal true c f es → ServesLoad number es → unrefuted_blocks c.block es ≡ same_blocks c f es }
{}

/// Each generated trace can be served.
pub fn generated_traces_can_be_served()
    ensures { (number : ℕ) → number ≤ MOST_TRACE_COMMANDS → All CanBeServed (make_traces number) }
{}

/// Queue `t` has trace `t`.
pub fn each_queue_has_its_trace()
    ensures { (number queue : ℕ) → IsWithin 1 4 queue → slice_index_or (make_traces number) (queue - 1) [] ≡ make_trace number queue }
{}

/// Where all was orderly when a run began, or just after its opening, it found whole blocks.
pub fn orderly_runs_find_whole_blocks()
    ensures { (c : DriveConfig) (f : Found) (es : List Entry) → IsOrderly c (point_of c f es) → (es ≡ []) ⊎ (es ≡ entries.Reopened ∷ []) → FindsWholeBlocks c f }
{}
