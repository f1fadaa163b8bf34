#![tactic(auto)]

// The worked examples of the change requests on the study text, on lines and on the search, document 02: one table and one theorem for each, over the definitions, in specs/.
