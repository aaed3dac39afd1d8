#![tactic(auto)]

// Document 01 as definitions and laws. All of it is in specs/.
