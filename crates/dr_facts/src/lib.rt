//! Facts on the definitions of `dr_model` that several crates above use, each stated once. It has no code: its lemmas are cited.
#![tactic(auto)]
