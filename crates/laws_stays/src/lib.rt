#![tactic(auto)]

// What reset writes is well formed, and an accepted advance leaves a well-formed state well formed: laws in specs/.
