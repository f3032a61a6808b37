// The moves of a running network.
#![tactic(auto)]
