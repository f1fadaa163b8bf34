#![tactic(auto)]

// Theorems over runs that mix calls of `advance` and of `list`: they stand in specs/.
