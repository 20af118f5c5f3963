//! A configuration text becomes a drive's configuration, or one named fault.
#![tactic(auto)]

mod configurations;
mod document;
mod fault;
mod key;
mod kinds;
mod limits;
mod namespaces;
mod numbers;
mod read;
mod room;

pub use fault::{ConfigFault, NoConfig, Word};
pub use key::{Key, Shape};
pub use limits::{
    MOST_AREA_UNITS, MOST_COLLECTORS, MOST_CONFIGURATIONS, MOST_GROUPS, MOST_QUEUES,
    MOST_UNIT_PAGES, MOST_UNITS,
};
pub use read::read_config;
