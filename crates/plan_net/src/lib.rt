#![tactic(auto)]

// Which network a plan is of. The crate is its specs.
