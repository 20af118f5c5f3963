use crate::owners::Owner;
use fdp_outline::Outline;
use fdp_snapshot::PageList;

/// What a drive is, while the journal behind its checkpoint is applied to it.
#[derive(Drop)]
pub struct Parts {
    /// What its checkpoint says beside the pages of the blocks.
    pub outline: Outline,
    /// The pages of the blocks of each namespace, by identifier and address.
    pub pages: Vec<PageList>,
    /// The block that stands on each data page.
    pub owners: Vec<Owner>,
}
