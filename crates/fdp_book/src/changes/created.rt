//! The change of a create.

ghost use Rattle.std.specs.Prelude.{◌≡◌, ◌&&◌, IsTrue, length, nat_lt, unwrap_or};
ghost use Rattle.fdp_base.specs.declared.command.Command.TheVariants as commands;
ghost use Rattle.fdp_book.specs.Book.{state_in};
ghost use Rattle.fdp_book.specs.Changes.{CanBeSaved};
ghost use Rattle.fdp_records.specs.Borrowed.{change_of};
ghost use Rattle.fdp_records.specs.declared.change.Change.TheVariants as changes;
ghost use Rattle.fdp_records.specs.Limits.{is_within_limits};
ghost use Rattle.fdp_rules.specs.Effect.{chosen_handles, lowest_free};

use crate::book::Book;
use fdp_base::Create;
use fdp_records::ChangeRef;

/// The change of a create with these handles, under the lowest identifier that no namespace has.
pub fn created_change<'a>(handles: &'a [u8], book: &Book, create: &Create) -> ChangeRef<'a>
    requires can { CanBeSaved book.now (commands.Create create.now) }
    requires handles { handles.now ≡ chosen_handles create.now.list }
    ensures change { change_of result ≡ changes.Create (unwrap_or (lowest_free (state_in book.now)) 0) create.now.size (create.now.given && nat_lt 0 (length create.now.list)) (chosen_handles create.now.list) }
    ensures limits { IsTrue (is_within_limits (change_of result)) }
{
    book.known(); // proof
    ChangeRef::Create {
        nsid: book.lowest_free().unwrap_or(0),
        size: create.size,
        given: is_given(create),
        handles,
    }
}

/// Whether the host gives a list; an empty one counts as none.
fn is_given(create: &Create) -> bool
    ensures { result ≡ (create.now.given && nat_lt 0 (length create.now.list)) }
{
    create.given && !create.list.as_slice().is_empty()
}
