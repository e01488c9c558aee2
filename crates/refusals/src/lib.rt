// The refusals of a service once its input is read: definitions and laws.
#![tactic(auto)]
