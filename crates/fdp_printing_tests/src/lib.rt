//! The tests of what is printed, and of the generated load.
#![tactic(auto)]

#[cfg(test)]
mod make;
#[cfg(test)]
mod printing;
