#![tactic(auto)]

// Theorems over the listing by pieces: they stand in specs/.
