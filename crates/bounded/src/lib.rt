// Definitions and laws only: what the matcher's work sets hold, over plain lists.
#![tactic(auto)]
