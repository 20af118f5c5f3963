/// Why the pages of data were not found.
#[derive(Clone, Copy, Debug, PartialEq, Eq)]
pub enum PagesFault {
    /// This page does not hold its block, or its data does not go with that of a block before it in its unit: the first such page, by
    /// namespace and address of its block.
    BadImage { page: u32 },
    /// A call of the flash failed, at this moment.
    FlashFault { moment: u64 },
    /// There was no memory for the tables of the pages.
    NoMemory,
}
