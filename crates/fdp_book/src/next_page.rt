use fdp_base::Spot;

/// What a going write comes to next.
#[derive(Clone, Copy, Debug, PartialEq, Eq)]
pub enum NextPage {
    /// Its namespace is not there any more.
    Gone,
    /// Its handle has no unit in its group, and fewer than three units of that are free.
    WantsUnit,
    /// Its next page, which holds its block `index`, goes here, with these spare bytes.
    At {
        spot: Spot,
        index: u32,
        spare: [u8; 32],
    },
}
