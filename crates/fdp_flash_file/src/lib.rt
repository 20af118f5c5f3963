//! The flash of the drive over a file.
#![tactic(auto)]

mod calls;
mod flash_file;
mod head;
mod page;
mod page_file;
mod take;

pub use flash_file::FlashFile;
pub use head::is_valid_geometry;
pub use take::TakeError;
