// A text of types: its words and marks.
#![tactic(auto)]
