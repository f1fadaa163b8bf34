#![tactic(auto)]

// When a node floats, in the paper's words: theorems over the definitions, in specs/.
