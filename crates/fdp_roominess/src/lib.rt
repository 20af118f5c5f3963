//! Room for relocation: a drive that began with it keeps it as long as no call of its flash fails.
#![tactic(auto)]

mod laws;

pub use laws::{
    commands_keep_room, drives_begin_with_room, drives_with_room_leave_roomy_images,
    one_whole_group_has_room_for_each_write, relocation_keeps_room,
    runs_keep_room_until_a_call_fails,
};
