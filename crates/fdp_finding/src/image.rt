use fdp_config::Key;

/// Why a drive does not go on from an image.
#[derive(Clone, Copy, Debug, PartialEq, Eq)]
pub enum ImageFault {
    /// It is that of a drive of another configuration, or of a flash that is cut otherwise: the value of this key differs.
    Other { key: Key },
    /// It holds no drive, and is not blank.
    NotADrive,
    /// It is damaged, as this page shows.
    Bad { page: u32 },
    /// Its drive has counted as far as a drive may.
    Spent,
}
