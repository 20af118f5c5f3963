use fdp_layouts::Sqe;

/// An entry of a submission queue, and whether it is of the admin queue.
#[derive(Clone, Copy, Debug, PartialEq, Eq)]
pub struct Work {
    pub admin: bool,
    pub sqe: Sqe,
}
