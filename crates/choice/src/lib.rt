// The words that the other crates' definitions choose with, and the laws on them. No code.
#![tactic(auto)]
