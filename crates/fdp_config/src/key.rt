ghost use Rattle.std.specs.Prelude.{◌≡◌};

use crate::limits::{
    MOST_AREA_UNITS, MOST_COLLECTORS, MOST_CONFIGURATIONS, MOST_GROUPS, MOST_QUEUES,
    MOST_UNIT_PAGES, MOST_UNITS,
};
use fdp_base::{MOST_COMMAND_BLOCKS, MOST_QUEUE_DEPTH};

/// The keys of a configuration text, in the order in which their faults are told.
#[derive(Clone, Copy, Debug, PartialEq, Eq)]
pub enum Key {
    Block,
    UnitPages,
    Groups,
    Units,
    AreaUnits,
    Queues,
    BlocksPerCommand,
    Fdp,
    Enabled,
    Index,
    Namespaces,
    QueueDepth,
    Collectors,
    Turns,
}

/// What stands at a key.
#[derive(Clone, Copy, Debug, PartialEq, Eq)]
pub enum Shape {
    /// A number from `low` to `high`.
    Number { low: u32, high: u32 },
    Truth,
    /// For each FDP configuration an array with a word for each of its handles.
    Configurations,
    /// A table for each namespace. The key may be left out.
    Namespaces,
}

impl Key {
    ghost use Rattle.fdp_config.specs.Table.{row_of, keys};

    /// All keys, in order.
    pub const ALL: [Key; 14] = [
        Key::Block,
        Key::UnitPages,
        Key::Groups,
        Key::Units,
        Key::AreaUnits,
        Key::Queues,
        Key::BlocksPerCommand,
        Key::Fdp,
        Key::Enabled,
        Key::Index,
        Key::Namespaces,
        Key::QueueDepth,
        Key::Collectors,
        Key::Turns,
    ];

    /// The word for it in a configuration text.
    pub fn word(self) -> &'static str
        ensures { result.now ≡ (row_of self).word }
    {
        match self {
            Key::Block => "block",
            Key::UnitPages => "unit_pages",
            Key::Groups => "groups",
            Key::Units => "units",
            Key::AreaUnits => "area_units",
            Key::Queues => "queues",
            Key::BlocksPerCommand => "blocks_per_command",
            Key::Fdp => "fdp",
            Key::Enabled => "enabled",
            Key::Index => "index",
            Key::Namespaces => "namespaces",
            Key::QueueDepth => "queue_depth",
            Key::Collectors => "collectors",
            Key::Turns => "turns",
        }
    }

    /// What stands there.
    pub fn shape(self) -> Shape
        ensures { result ≡ (row_of self).shape }
    {
        match self {
            Key::Block => Shape::Number {
                low: 512,
                high: 4096,
            },
            Key::UnitPages => Shape::Number {
                low: 2,
                high: MOST_UNIT_PAGES,
            },
            Key::Groups => Shape::Number {
                low: 1,
                high: MOST_GROUPS,
            },
            Key::Units => Shape::Number {
                low: 1,
                high: MOST_UNITS,
            },
            Key::AreaUnits => Shape::Number {
                low: 1,
                high: MOST_AREA_UNITS,
            },
            Key::Queues => Shape::Number {
                low: 1,
                high: MOST_QUEUES,
            },
            Key::BlocksPerCommand => Shape::Number {
                low: 1,
                high: MOST_COMMAND_BLOCKS as u32,
            },
            Key::Fdp => Shape::Configurations,
            Key::Enabled => Shape::Truth,
            Key::Index => Shape::Number {
                low: 0,
                high: MOST_CONFIGURATIONS as u32 - 1,
            },
            Key::Namespaces => Shape::Namespaces,
            Key::QueueDepth => Shape::Number {
                low: 2,
                high: MOST_QUEUE_DEPTH as u32,
            },
            Key::Collectors => Shape::Number {
                low: 0,
                high: MOST_COLLECTORS,
            },
            Key::Turns => Shape::Number {
                low: 0,
                high: u32::MAX,
            },
        }
    }
}
