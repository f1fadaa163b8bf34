#![tactic(auto)]

// An area's advance reads and writes nothing but what is its own, and the far values that it hears: laws in specs/.
