//! How many entries of a history are firm.

ghost use Rattle.std.specs.Prelude.{◌≡◌, ◌<◌, ◌^◌, ◌∷◌, [], List, length};
ghost use Rattle.fdp_base.specs.declared.entry.Entry.{Entry};
ghost use Rattle.fdp_durability.specs.Saved.{firm_renewed, firm_with};

use fdp_book::Book;
use fdp_durability::Saved;
use fdp_flash::Wrote;

/// So many after the saving of an entry behind so many: all with it, or those that were.
pub fn firm_saved(entries: usize, firm: u64, saved: Saved) -> u64
    requires { entries < 2 ^ 63 }
    ensures { (es : List Entry) (e : Entry) → length es ≡ entries → result ≡ firm_with es (e ∷ []) firm saved }
{
    match saved {
        Saved::Done => entries as u64 + 1,
        Saved::Doubtful { moment: _ } => firm,
        Saved::Unsaved { moment: _ } => firm,
    }
}

/// So many after a checkpoint, where one was wanted: all, or those that were.
pub fn firm_renewed(wanted: bool, book: &Book, firm: u64, wrote: Wrote) -> u64
    ensures { result ≡ firm_renewed wanted book.now.entries firm wrote }
{
    match wrote {
        Wrote::Done => all_if(wanted, book, firm),
        Wrote::Failed => firm,
    }
}

/// All entries where it is wanted, else those that were firm.
fn all_if(wanted: bool, book: &Book, firm: u64) -> u64
    ensures { result ≡ firm_renewed wanted book.now.entries firm Wrote.Done }
{
    if wanted {
        book.entries().len() as u64
    } else {
        firm
    }
}
