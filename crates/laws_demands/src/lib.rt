#![tactic(auto)]

// Demand 2 over one call: what an accepted step satisfies, and when each refusal comes: theorems in specs/.
