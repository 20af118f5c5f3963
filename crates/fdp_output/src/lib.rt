//! The printed text of a run: its completions, its sums, the usage of its handles and its events.
#![tactic(auto)]
