//! The program over a bench and a sink: words in, a text and a status out.
#![tactic(auto)]

mod closing;
mod exit;
mod laws;
mod loading;
mod refusing;
mod top;
mod verdict;

pub use exit::drive_process;
pub use laws::{a_record_is_audited_yes, a_second_run_goes_on, a_second_run_opens};
pub use top::drive_top;
