// Candidates and layouts as records of words: checked, decoded and written.
#![tactic(auto)]

pub mod candidate;
pub mod layout;
