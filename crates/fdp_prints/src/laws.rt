ghost use Rattle.std.specs.Prelude.{◌≡◌, ◌++◌, ◌^◌, ◌<◌, ℕ, List, length};
ghost use Rattle.fdp_base.specs.declared.command.Command.{Command};
ghost use Rattle.fdp_base.specs.declared.config.DriveConfig.{DriveConfig};
ghost use Rattle.fdp_base.specs.declared.entry.Entry.{Entry};
ghost use Rattle.fdp_base.specs.Geometry.{IsBlockSize};
ghost use Rattle.fdp_output.specs.CommandData.{own_lines, own_text};
ghost use Rattle.fdp_output.specs.CommandText.{command_text, work_words};
ghost use Rattle.fdp_output.specs.HistoryText.{entry_lines};
ghost use Rattle.fdp_output.specs.Output.{block_line};
ghost use Rattle.fdp_prints.specs.Told.{AreBytes, AreTold, IsFramed, IsGiven, IsTold, printed};
ghost use Rattle.fdp_queues.specs.Entry.{work_of};

/// Two commands that a line or a frame gives and that are printed alike, with the data that they carry, are one. The line of a command that a trace
/// spells has no data below it.
pub fn one_command_a_line()
    ensures { (block : ℕ) (a b : Command) → IsBlockSize block → IsGiven block a → IsGiven block b → command_text a ≡ command_text b → own_text block a ≡ own_text block b → a ≡ b }
{}

/// Two commands of frames with one entry and the same lines of data are one.
pub fn one_frame_a_print()
    ensures { (block : ℕ) (a b : Command) → IsBlockSize block → IsFramed block a → IsFramed block b → work_words (work_of a 0) ≡ work_words (work_of b 0)
        → own_lines block a ≡ own_lines block b → a ≡ b }
{}

/// Two blocks of one size that are printed alike are one.
pub fn one_block_a_line()
    ensures { (x y : List ℕ) → length x ≡ length y → AreBytes x → AreBytes y → block_line x ≡ block_line y → x ≡ y }
{}

/// Where two texts begin with the lines of an entry at its position, and are the same, these are one entry at one position, and what follows is the same.
pub fn one_entry_a_print()
    ensures { (c : DriveConfig) (p q : ℕ) (d e : Entry) (more rest : List ℕ) → IsBlockSize c.block → p < 2 ^ 64 → q < 2 ^ 64 → IsTold c d → IsTold c e
        → entry_lines c.block p d ++ more ≡ entry_lines c.block q e ++ rest → (p ≡ q) × (d ≡ e) × (more ≡ rest) }
{}

/// Of entries that a print tells whole, no two lists have one print.
pub fn one_history_a_print()
    ensures { (c : DriveConfig) (xs ys : List (ℕ × Entry)) → IsBlockSize c.block → AreTold c xs → AreTold c ys → printed c.block xs ≡ printed c.block ys → xs ≡ ys }
{}
