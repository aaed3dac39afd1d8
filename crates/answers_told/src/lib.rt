#![tactic(auto)]

// Every refusal of the model has a number of the documents' table, so that a result tells it. All of it is in specs/.
