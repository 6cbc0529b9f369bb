// Where the fields of a link setup frame (LSF) stand, and the laws of runs of bits. No code.
#![tactic(auto)]
