// The fields of the screen file's text: which ones its lines have, and the word that each stands for.
#![tactic(auto)]

pub mod field;
pub mod format;
