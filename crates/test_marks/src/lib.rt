// The marked cases of document 01: definitions and laws, no function is declared here.
#![tactic(auto)]
