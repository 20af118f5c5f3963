/// What the change of a write names beside its pages.
#[derive(Clone, Copy, Debug, PartialEq, Eq)]
pub struct WriteNames {
    pub nsid: u32,
    /// The address of its first block.
    pub slba: u64,
    /// The placement identifier that it came with.
    pub pid: u16,
    /// Whether that was not valid, so that the write went elsewhere.
    pub pid_invalid: bool,
}
