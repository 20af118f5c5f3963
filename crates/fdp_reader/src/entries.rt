//! The entries of a printed history.

ghost use Rattle.std.specs.Prelude.{IfOk};
ghost use Rattle.fdp_base.specs.Config.{IsValidConfig};
ghost use Rattle.fdp_reader.specs.Entries.{Comes};

use crate::cut::behind;
use crate::next::{Next, next_entry};
use fdp_base::{DriveConfig, Entry};
use std::alloc::{AllocError, Global};

/// What a text of entries comes to.
#[derive(Debug, Drop)]
pub enum Entries {
    /// It is the print of these, each with its position.
    Whole(Vec<(u64, Entry)>),
    /// No print of entries goes on behind so many bytes.
    Stop { len: usize },
}

/// The entries of a text that is the print of some.
pub fn read_entries(alloc: Global, config: &DriveConfig, text: &[u8]) -> Result<Entries, AllocError>
    requires { IsValidConfig config.now }
    ensures { IfOk result (Comes config.now text.now) }
{
    let mut entries = Vec::new(alloc);
    let mut rest = text;
    while !rest.is_empty() {
        let next = next_entry(alloc, config, rest)?;
        match next {
            Next::Entry {
                position,
                entry,
                len,
            } => {
                entries.push((position, entry))?;
                rest = behind(rest, len);
            }
            Next::Stop { len } => {
                let before = text.len() - rest.len();
                return Ok(Entries::Stop { len: before + len });
            }
        }
    }
    Ok(Entries::Whole(entries))
}
