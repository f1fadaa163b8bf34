#![tactic(auto)]

// Peaks over every run: the theorem stands in specs/.
