#![tactic(auto)]

// An area's own legs against the paper's two legs of every row. The crate is its specs.
