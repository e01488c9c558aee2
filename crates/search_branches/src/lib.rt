// Branches of the search: definitions and laws, no function is declared here.
#![tactic(auto)]
