//! What holds of streams, whoever reads or writes them.

ghost use Rattle.std.specs.Prelude.{◌≡◌, ℕ, List, All};
ghost use Rattle.fdp_base.specs.declared.command.Command.{Command};
ghost use Rattle.fdp_base.specs.declared.config.DriveConfig.{DriveConfig};
ghost use Rattle.fdp_base.specs.CommandKinds.{IsWellFormed};
ghost use Rattle.fdp_base.specs.Geometry.{IsBlockSize};
ghost use Rattle.fdp_binary.specs.declared.fault.StreamFault.{StreamFault};
ghost use Rattle.fdp_binary.specs.Frames.{IsFrame};
ghost use Rattle.fdp_binary.specs.Streams.{IsBroken, IsStream, Splits};

/// Bytes are a frame of one command.
pub fn one_command_a_frame()
    ensures { (block : ℕ) (bytes : List ℕ) (c d : Command) → IsBlockSize block → IsFrame block bytes c → IsFrame block bytes d → c ≡ d }
{}

/// However a stream is cut into frames, it is these commands, and this rest.
pub fn one_reading()
    ensures { (block : ℕ) (bytes : List ℕ) (cs ds : List Command) (r s : List ℕ) → IsBlockSize block
        → Splits block bytes cs r → Splits block bytes ds s → (cs ≡ ds) × (r ≡ s) }
{}

/// Bytes that are a stream have no fault, and do not end within a frame.
pub fn a_stream_is_not_broken()
    ensures { (block : ℕ) (bytes : List ℕ) (cs : List Command) (fault : StreamFault) → IsBlockSize block
        → IsStream block bytes cs → IsBroken block bytes fault → ⊥ }
{}

/// Bytes are broken in one way.
pub fn one_fault()
    ensures { (block : ℕ) (bytes : List ℕ) (f g : StreamFault) → IsBlockSize block → IsBroken block bytes f → IsBroken block bytes g → f ≡ g }
{}

/// Commands of frames can be served.
pub fn frames_are_well_formed()
    ensures { (c : DriveConfig) (bytes : List ℕ) (command : Command) → IsFrame c.block bytes command → IsWellFormed c command }
{}

/// So can those of streams.
pub fn streams_are_well_formed()
    ensures { (c : DriveConfig) (bytes : List ℕ) (commands : List Command) → IsStream c.block bytes commands → All (IsWellFormed c) commands }
{}
