// A message that breaks it: definitions and laws only (specs/).
#![tactic(auto)]
