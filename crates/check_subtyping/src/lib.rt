// Subtyping of message types: definitions and laws only (specs/).
#![tactic(auto)]
