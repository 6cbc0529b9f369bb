// Document 01's starred examples: statements alone, over the crates that they speak of.
#![tactic(auto)]
