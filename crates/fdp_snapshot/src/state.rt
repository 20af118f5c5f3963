use crate::keys::Keys;
use crate::ring::EventRing;
use crate::space::Space;
use fdp_base::{Sequence, Totals};

/// What a checkpoint says of a drive, but for the pages of its blocks.
#[derive(Debug, Drop)]
pub struct Summary {
    pub keys: Keys,
    pub totals: Totals,
    pub enabled: bool,
    pub index: u8,
    pub generation: u32,
    /// The kinds of event that are kept for each handle, as bits: 0 to 3 for 00h to 03h, 4 for 80h, 5 for 81h.
    pub masks: [u8; 16],
    /// The namespaces by identifier, sixteen from 1 on.
    pub spaces: Sequence<Option<Space>>,
    /// The latest events of hosts.
    pub host_events: EventRing,
    /// The latest events of the controller.
    pub controller_events: EventRing,
}

/// The number of the page of each block of a namespace, by address.
pub type PageList = Sequence<Option<u32>>;

/// What a checkpoint says.
#[derive(Debug, Drop)]
pub struct State {
    pub summary: Summary,
    /// By identifier, sixteen lists from 1 on; that of a namespace which is not there is empty.
    pub pages: Sequence<PageList>,
}
