//! The tests of the records, the checkpoint, the flash and the outside of a drive.
#![tactic(auto)]

#[cfg(test)]
mod flash;
#[cfg(test)]
mod flash_file;
#[cfg(test)]
mod io;
#[cfg(test)]
mod records;
#[cfg(test)]
mod snapshot;
