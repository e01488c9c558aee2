// Definitions and theorems only: when a placement is legal, how long its nets are, and which placement is a chip's record.
#![tactic(auto)]
