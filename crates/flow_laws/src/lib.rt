// Flows on a graph of bounds, and their duality: definitions and laws. No function is declared here.
#![tactic(auto)]
