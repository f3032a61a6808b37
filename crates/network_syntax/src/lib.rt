// The abstract syntax of networks: definitions only (specs/).
#![tactic(auto)]
