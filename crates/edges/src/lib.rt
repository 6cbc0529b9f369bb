// No code: what the definitions that the contracts cite say at the edges of document 01's rules (specs/), each proved (proofs/).
#![tactic(auto)]
