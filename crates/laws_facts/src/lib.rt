#![tactic(auto)]

// What every network record that passes refusal 8 has, derived once: laws, in specs/.
