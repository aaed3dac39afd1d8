// Request 4 of document 02 as definitions and laws. All of it is in specs/.
#![tactic(auto)]
