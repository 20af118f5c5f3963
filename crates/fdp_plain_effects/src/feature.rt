ghost use Rattle.fdp_base.specs.EventCodes.{kind_code};
ghost use Rattle.fdp_base.specs.declared.command.Command.TheVariants as commands;
ghost use Rattle.fdp_base.specs.declared.event.EventKind.{EventKind};
ghost use Rattle.fdp_rules.specs.Effect.{effect_of, reporting, without_references};
ghost use Rattle.fdp_rules.specs.Room.{handles_of};
ghost use Rattle.fdp_tables.specs.Reports.{no_reports};
ghost use Rattle.fdp_tables.specs.State.{keeps, plain_of};
ghost use Rattle.std.specs.List.{list_any};
ghost use Rattle.std.specs.Prelude.{◌≡◌, ℕ, ◌+◌, ◌^◌, ◌<◌, ◌==◌, if◌then◌else◌, false, length, map, slice_index};

use fdp_base::SetEvents;
use fdp_tables::{Kept, KeptReference, KeptReports, no_reports};

/// No handle references a unit any longer.
pub(crate) fn forget_references(kept: &mut Kept)
    ensures state { plain_of kept.new ≡ without_references kept.old.config (plain_of kept.old) }
    ensures rest { kept.new ≡ record kept.old { references = kept.new.references } }
    ensures rows { length kept.new.references.items ≡ length kept.old.references.items }
{
    let none = kept.no_reference();
    clear_references(kept.references.as_mut_slice(), none);
}

/// No kind of event is kept any longer.
fn forget_reports(kept: &mut Kept)
    ensures state { plain_of kept.new ≡ record (plain_of kept.old) { reports = λ ruh kind. false } }
    ensures rest { kept.new ≡ record kept.old { reports = kept.new.reports } }
    ensures rows { length kept.new.reports.items ≡ length kept.old.reports.items }
{
    clear_reports(kept.reports.as_mut_slice());
}

/// Sets whether placement is enabled, and its configuration.
#[tactic(auto, unfolding(fdp_rules::specs::Effect::effect_of))]
pub(crate) fn set_fdp(kept: &mut Kept, enable: bool, index: u8)
    requires { kept.old.generation + 1 < 2 ^ 64 }
    ensures state { (queue group : ℕ) → plain_of kept.new ≡ effect_of kept.old.config (plain_of kept.old) queue (commands.SetFdp (record { group = group; enable = enable; index = index })) }
    ensures rest { kept.new ≡ record kept.old { enabled = kept.new.enabled; index = kept.new.index; generation = kept.new.generation; reports = kept.new.reports; references = kept.new.references } }
    ensures reports { length kept.new.reports.items ≡ length kept.old.reports.items }
    ensures references { length kept.new.references.items ≡ length kept.old.references.items }
{
    kept.enabled = enable;
    kept.index = index;
    kept.generation += 1;
    forget_reports(kept);
    forget_references(kept);
}

/// Keeps the events of these types for a handle from now on, or no longer.
fn report(kept: &mut Kept, ruh: usize, enable: bool, types: &[u8])
    requires { ruh < length kept.old.reports.items }
    ensures state { plain_of kept.new ≡ reporting (plain_of kept.old) ruh enable types.now }
    ensures rest { kept.new ≡ record kept.old { reports = kept.new.reports } }
    ensures rows { length kept.new.reports.items ≡ length kept.old.reports.items }
{
    kept.reports[ruh] = reporting(kept.reports[ruh], enable, types);
}

/// Keeps events for a placement handle of a namespace, or no longer.
#[tactic(auto, unfolding(fdp_rules::specs::Effect::effect_of))]
pub(crate) fn set_events(kept: &mut Kept, set: &SetEvents)
    requires handle { set.now.handle < length (handles_of (plain_of kept.old) set.now.nsid) }
    requires ruh { slice_index (handles_of (plain_of kept.old) set.now.nsid) set.now.handle < length kept.old.reports.items }
    ensures state { (queue : ℕ) → plain_of kept.new ≡ effect_of kept.old.config (plain_of kept.old) queue (commands.SetEvents set.now) }
    ensures rest { kept.new ≡ record kept.old { reports = kept.new.reports } }
    ensures rows { length kept.new.reports.items ≡ length kept.old.reports.items }
{
    let ruh = kept.handles_of(set.nsid)[usize::from(set.handle)];
    report(kept, usize::from(ruh), set.enable, set.types.as_slice());
}

fn clear_references(references: &mut [KeptReference], none: KeptReference)
    ensures { references.new ≡ map (λ x. none) references.old }
{
    for reference in references.iter_mut() {
        *reference = none;
    }
}

fn clear_reports(reports: &mut [KeptReports])
    ensures { reports.new ≡ map (λ x. no_reports) reports.old }
{
    for kept in reports.iter_mut() {
        *kept = no_reports();
    }
}

/// The kinds that are kept once the events of these types are kept, or no longer.
fn reporting(kept: KeptReports, enable: bool, types: &[u8]) -> KeptReports
    ensures { (kind : EventKind) → keeps kind result ≡ (if list_any (λ code. code == kind_code kind) types.now then enable else keeps kind kept) }
{
    KeptReports {
        not_fully_written: chosen(kept.not_fully_written, enable, types, 0x00),
        time_limit_exceeded: chosen(kept.time_limit_exceeded, enable, types, 0x01),
        handles_modified: chosen(kept.handles_modified, enable, types, 0x02),
        invalid_identifier: chosen(kept.invalid_identifier, enable, types, 0x03),
        media_reallocated: chosen(kept.media_reallocated, enable, types, 0x80),
        implicitly_modified: chosen(kept.implicitly_modified, enable, types, 0x81),
    }
}

/// Whether a type is kept once these types are, or no longer.
fn chosen(kept: bool, enable: bool, types: &[u8], code: u8) -> bool
    ensures { result ≡ (if list_any (λ c. c == code) types.now then enable else kept) }
{
    if types.contains(&code) { enable } else { kept }
}
