//! The tests of the program over a bench and a sink.
#![tactic(auto)]

#[cfg(test)]
mod tests;
