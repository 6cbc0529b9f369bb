// What it is to read, put and test sixteen bytes at once, for the crates that do it: `block_load`, `block_store`, `block_none`.
#![tactic(auto)]
