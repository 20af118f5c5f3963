ghost use Rattle.std.specs.Prelude.{◌≡◌, ◌≤◌, ℕ, IsTrue};
ghost use Rattle.fdp_snapshot.specs.declared.state.State.{State};
ghost use Rattle.fdp_snapshot.specs.Checkpoint.{IsState, checkpoint_of, checkpoint_size, is_checkpoint};
ghost use Rattle.fdp_snapshot.specs.Reading.{state_in};
ghost use Rattle.fdp_snapshot.specs.Sizes.{SummaryFits};

/// The checkpoint of a state, in so many bytes that it has room, is a checkpoint, and it says that state.
pub fn checkpoint_says_its_state()
    ensures is { (version len : ℕ) (s : State) → IsState s → SummaryFits s.summary → checkpoint_size s.summary ≤ len → IsTrue (is_checkpoint version (checkpoint_of version len s)) }
    ensures told { (version len : ℕ) (s : State) → IsState s → SummaryFits s.summary → checkpoint_size s.summary ≤ len → state_in (checkpoint_of version len s) ≡ s }
{}
