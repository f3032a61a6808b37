// Typing of networks: definitions and laws only (specs/).
#![tactic(auto)]
