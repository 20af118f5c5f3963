//! Which system area of a flash is sealed, and which is current: a look at each page of the checkpoints, up to the seals. Whether its
//! data pages are blank.
#![tactic(auto)]

mod current;
mod data;
mod look;
mod seal;
mod search;

pub use current::find_current;
pub use data::{find_used, look_at_data};
pub use look::look_at;
pub use seal::{Current, LookFailed, Seal};
pub use search::{find_seal, is_page};
