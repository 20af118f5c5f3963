//! The bytes of a checkpoint: what a drive is, in and out.
#![tactic(auto)]

mod content;
mod encode;
mod event;
mod handles;
mod keys;
mod laws;
mod page;
mod reading;
mod ring;
mod row;
mod space;
mod state;

pub use content::put_page;
pub use encode::{FIXED_SIZE, put_fixed};
pub use handles::NamespaceHandles;
pub use keys::{HandleRow, Keys};
pub use laws::checkpoint_says_its_state;
pub use reading::{BadCheckpoint, decode, end_of_blocks};
pub use ring::{EventRing, MOST_EVENTS};
pub use space::Space;
pub use state::{PageList, State, Summary};
