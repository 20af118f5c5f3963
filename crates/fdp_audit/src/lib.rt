//! The auditor: the records of runs on one image are judged, by the plain drive.
#![tactic(auto)]

mod due;
mod fault;
mod history;
mod laws;
mod next;
mod runs;
mod told;
mod verdict;

pub use fault::{AuditFault, RunFault};
pub use laws::outputs_have_the_form;
pub use runs::audit;
