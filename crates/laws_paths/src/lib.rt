#![tactic(auto)]

// Paths of joins, against the rounds that find out which nodes hang together: laws, in specs/.
