// No code: lists of calls on a board stand in specs/, and their laws in proofs/.
#![tactic(auto)]
