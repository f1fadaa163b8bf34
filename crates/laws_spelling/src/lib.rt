#![tactic(auto)]

// The one spelling of a study, and what it has to do with network records: theorems over the definitions, in specs/.
