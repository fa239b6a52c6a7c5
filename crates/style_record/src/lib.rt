// The style record: 79 words an item (document 01, request #105), in a lent table; checked and decoded.
#![tactic(auto)]

pub mod check;
pub mod decode;
pub mod table;
pub mod words;
