//! The tables of the plain drive: what the entries of a run leave, and what is looked up there.
#![tactic(auto)]

mod blocks;
mod create;
mod fresh;
mod index;
mod kinds;
mod laid;
mod look;
mod moving;
mod page_sites;
mod places;
mod room;
mod runs;
mod site_change;
mod sites;
mod standing;
mod starts;
mod state;
mod strip;
mod strips;

pub use blocks::Blocks;
pub use create::make_space;
pub use fresh::no_reports;
pub use kinds::{is_read, is_write};
pub use page_sites::PageSites;
pub use room::is_among;
pub use runs::last_run;
pub use standing::Standing;
pub use state::{Kept, KeptBlock, KeptGoing, KeptPage, KeptReference, KeptReports, Space};
pub use strip::MadeBlock;
