//! What holds of all commands.

ghost use Rattle.std.specs.Prelude.{◌≡◌, ◌↔◌, ℕ, List, true};
ghost use Rattle.fdp_base.specs.declared.command.Command.{Command};
ghost use Rattle.fdp_output.specs.CommandText.{is_spelled, line_words, work_words};
ghost use Rattle.fdp_queues.specs.declared.work.Work.{Work};
ghost use Rattle.fdp_trace.specs.Demands.{Spells};
ghost use Rattle.fdp_trace.specs.Typed.{IsTyped};

/// Some line of a trace spells a command just where it is printed as one, and then its own words do.
pub fn lines_spell_the_spelled()
    ensures just { (command : Command) → IsTyped command → (is_spelled command ≡ true) ↔ ((words : List (List ℕ)) × Spells words command) }
    ensures own { (command : Command) → IsTyped command → is_spelled command ≡ true → Spells (line_words command) command }
{}

/// What is printed of an entry is no line of a trace.
pub fn no_line_spells_an_entry()
    ensures { (work : Work) (command : Command) → Spells (work_words work) command → ⊥ }
{}
