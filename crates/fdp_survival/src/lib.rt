//! What no step of a drive lets a stop lose.
#![tactic(auto)]

mod books;

pub use books::{books_can_be_saved, durable_things_stand_apart, isolated_images_are_said_apart};
