//! Facts on truth values, optional values, results, lists and sets of numbers that the library lacks. It has no code: its lemmas are
//! cited by the crates above.
#![tactic(auto)]
