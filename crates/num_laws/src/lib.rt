// Sums and spreads of natural numbers: no function is declared here.
#![tactic(auto)]
