#![tactic(auto)]

// Breakers over every run: the theorem stands in specs/.
