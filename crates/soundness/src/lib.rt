// Property 3: type soundness of the moves, over the definitions alone.
#![tactic(auto)]
