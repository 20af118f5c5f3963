ghost use Rattle.fdp_plain_trail.specs.Counted.{HasCountRoom};
ghost use Rattle.fdp_rules.specs.Totals.{erases_of, host_blocks_of, media_blocks_of};
ghost use Rattle.std.specs.Prelude.{◌≡◌, ◌+◌};

use fdp_base::Entry;
use fdp_tables::Kept;

/// Adds what an entry counts to the sums.
pub fn count(kept: &mut Kept, entry: &Entry)
    requires { HasCountRoom kept.old }
    ensures host_blocks { kept.new.host_blocks ≡ kept.old.host_blocks + host_blocks_of entry.now }
    ensures media_blocks { kept.new.media_blocks ≡ kept.old.media_blocks + media_blocks_of entry.now }
    ensures erases { kept.new.erases ≡ kept.old.erases + erases_of entry.now }
    ensures rest { kept.new ≡ record kept.old { host_blocks = kept.new.host_blocks; media_blocks = kept.new.media_blocks; erases = kept.new.erases } }
{
    kept.host_blocks += u128::from(host_blocks_of(entry));
    let (pages, erases) = pages_and_erases_of(entry);
    kept.media_blocks += u128::from(pages);
    kept.erases += u128::from(erases);
}

/// The blocks of an applied write.
fn host_blocks_of(entry: &Entry) -> u32
    ensures { result ≡ host_blocks_of entry.now }
{
    match entry.as_host() {
        Some(host) => {
            if host.reply.applied {
                host.command.blocks_written()
            } else {
                0
            }
        }
        None => 0,
    }
}

/// The pages of an entry that were programmed, for a host or by relocation, and the units that were erased.
fn pages_and_erases_of(entry: &Entry) -> (u32, u32)
    ensures pages { result.0 ≡ media_blocks_of entry.now }
    ensures erases { result.1 ≡ erases_of entry.now }
{
    match entry {
        Entry::Placed(_) | Entry::Copied(_) => (1, 0),
        Entry::Erased(_) => (0, 1),
        Entry::Host(_)
        | Entry::Started(_)
        | Entry::Moved(_)
        | Entry::Retired(_)
        | Entry::Aside(_)
        | Entry::Shut(_)
        | Entry::Worn(_)
        | Entry::Reopened => (0, 0),
    }
}
