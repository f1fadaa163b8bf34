#![tactic(auto)]

// The worked examples of the change requests on what a run keeps and is driven by, document 02: peaks, power-frequency sources, breakers; in specs/.
