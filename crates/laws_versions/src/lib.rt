#![tactic(auto)]

// What demands 1 and 2 ask of any version of `advance`, that there is one that meets them, and that it is the only one: theorems in specs/.
