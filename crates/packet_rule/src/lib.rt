// Definitions and proofs only: what the packet queue holds, takes and gives. See specs/.
#![tactic(auto)]
