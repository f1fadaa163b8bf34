#![tactic(auto)]

// Orders of calls, over any system whose moves do not disturb one another: laws for the crates above, in specs/.
