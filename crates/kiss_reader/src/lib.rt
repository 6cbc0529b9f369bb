// Definitions and proofs only: which frames an input of bytes holds, and a reader on lists of bytes. See specs/.
#![tactic(auto)]
