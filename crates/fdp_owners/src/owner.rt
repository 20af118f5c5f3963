use fdp_base::DataSpare;

/// For what a page of data is kept.
#[derive(Clone, Copy, Debug, PartialEq, Eq)]
pub enum Holder {
    /// The block that the spare of the page names.
    Block,
    /// The write that is going in this queue: the block of it that the spare names.
    Flight(u8),
}

/// Who points to a page of data, and what the spare of the page says.
#[derive(Clone, Copy, Debug, PartialEq, Eq)]
pub struct Owner {
    pub holder: Holder,
    pub spare: DataSpare,
}
