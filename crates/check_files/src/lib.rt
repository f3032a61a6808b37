// The checker of network files as a definition: specs/ alone.
#![tactic(auto)]
