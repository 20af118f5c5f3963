/// Where a write goes.
#[derive(Clone, Copy, Debug, PartialEq, Eq)]
pub struct WritePlace {
    pub rg: u16,
    pub ruh: u8,
}
