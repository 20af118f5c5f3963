//! The limits of a configuration's values that no other text or command has.

/// Pages of a unit.
pub const MOST_UNIT_PAGES: u32 = 256;

/// Reclaim groups.
pub const MOST_GROUPS: u32 = 16;

/// Data units of a group.
pub const MOST_UNITS: u32 = 131_072;

/// Units of a system area.
pub const MOST_AREA_UNITS: u32 = 65_536;

/// Queues.
pub const MOST_QUEUES: u32 = 16;

/// FDP configurations.
pub const MOST_CONFIGURATIONS: usize = 4;

/// Collectors.
pub const MOST_COLLECTORS: u32 = 8;
