#![tactic(auto)]

// Laws alone: voltages in their range, what a source's value and a fixed node's voltage are. They stand in specs/.
