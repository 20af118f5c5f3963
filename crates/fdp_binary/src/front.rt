ghost use Rattle.std.specs.Prelude.{◌≡◌, ◌++◌, ◌≤◌, MatchOption, length, OnOk, OnErr};
ghost use Rattle.fdp_layouts.specs.Frame.{Fits};
ghost use Rattle.fdp_layouts.specs.Submission.{sqe, sqe_numbers};
ghost use Rattle.fdp_queues.specs.Entry.{entry_bytes};
ghost use Rattle.fdp_binary.specs.Front.{Begins, IsEntry, IsHead, IsNoEntry, IsNoHead, head};
ghost use Rattle.fdp_binary.specs.Carrying.{Extends};
ghost use Rattle.fdp_binary.specs.declared.front.Front.{Front};

use fdp_layouts::{Frame, Sqe};
use std::alloc::AllocError;

/// Bytes of a head.
pub const HEAD: usize = 16;

/// Bytes of a head and the entry behind it.
pub const FRONT: usize = 80;

/// The head of a frame and the entry behind it: whether the entry is one of the admin queue, and how many bytes of data
/// follow.
#[derive(Clone, Copy, Debug)]
pub struct Front {
    pub admin: bool,
    pub len: u32,
    pub entry: Sqe,
}

/// The head and the entry that the bytes begin with, if they do.
pub fn front_of(bytes: &[u8]) -> Option<Front>
    requires { FRONT ≤ length bytes.now }
    ensures { MatchOption result ((front : Front) → Begins front bytes.now → ⊥) (λ front. Begins front bytes.now) }
{
    match head_of(&bytes[..HEAD]) {
        Some(head) => match entry_of(&bytes[HEAD..FRONT]) {
            Some(entry) => Some(Front {
                admin: head.0,
                len: head.1,
                entry,
            }),
            None => None,
        },
        None => None,
    }
}

/// What a head says: whether the entry is one of the admin queue, and how many bytes of data follow.
fn head_of(bytes: &[u8]) -> Option<(bool, u32)>
    requires { length bytes.now ≡ HEAD }
    ensures { MatchOption result (IsNoHead bytes.now) (λ found. IsHead bytes.now found.0 found.1) }
{
    let admin = bytes[0] == 1;
    let len = u32::from_le_bytes([bytes[4], bytes[5], bytes[6], bytes[7]]);
    if bytes == head_bytes(admin, len).as_slice() {
        Some((admin, len))
    } else {
        None
    }
}

fn head_bytes(admin: bool, len: u32) -> [u8; 16]
    ensures { result ≡ head admin len }
{
    let [a, b, c, d] = len.to_le_bytes();
    [u8::from(admin), 0, 0, 0, a, b, c, d, 0, 0, 0, 0, 0, 0, 0, 0]
}

/// The entry that these bytes are, if they are one: bits that are reserved have to be zero.
pub fn entry_of(bytes: &[u8]) -> Option<Sqe>
    requires { length bytes.now ≡ 64 }
    ensures { MatchOption result (IsNoEntry bytes.now) (λ entry. IsEntry bytes.now entry) }
{
    let mut frame = [0; 64];
    frame.copy_from_slice(bytes);
    match Sqe::decode(&frame) {
        Ok(entry) => {
            let _fits = entry.encode(); // proof
            Some(entry)
        }
        Err(_) => None,
    }
}

/// Appends a head and the entry behind it.
pub fn push_front(admin: bool, len: u32, entry: &Sqe, into: &mut Vec<u8>) -> Result<(), AllocError>
    ensures ok { OnOk result (into.new.items ≡ into.old.items ++ head admin len ++ entry_bytes entry.now) }
    ensures fits { OnOk result (Fits sqe (sqe_numbers entry.now)) }
    ensures err { OnErr result (Extends into.old.items into.new.items) }
{
    into.extend_from_slice(&head_bytes(admin, len))?;
    into.extend_from_slice(&entry.encode())
}
