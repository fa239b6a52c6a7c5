// Stored boxes by axis, computed from the definitions: the Rust's or, where request #106 doesn't compare with the Rust, the second
// implementation's.
#![tactic(auto)]
