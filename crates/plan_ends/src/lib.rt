#![tactic(auto)]

// Definitions and laws alone: whose each end of a row is, and what is an area's own. They stand in specs/.
