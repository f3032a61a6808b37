// The generic forest: definitions and laws only (specs/).
#![tactic(auto)]
