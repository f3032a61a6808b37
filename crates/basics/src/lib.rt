// What every other crate may use: choices by a test, laws of truth values and lists.
#![tactic(auto)]
