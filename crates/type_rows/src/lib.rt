// The rows of declared types.
#![tactic(auto)]
