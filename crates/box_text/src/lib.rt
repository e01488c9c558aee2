// The text of a record with the box of each net (document 02, Card 2): definitions and laws.
#![tactic(auto)]
