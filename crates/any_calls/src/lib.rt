// Definitions and proofs only: what holds over any calls of the TNC. See specs/.
#![tactic(auto)]
