#![tactic(auto)]

// Laws on lists, orders and numbers that the other crates cite. All of it is in specs/.
