// No code: what the analysis promises of the board stands in specs/, and its proof in proofs/.
#![tactic(auto)]
