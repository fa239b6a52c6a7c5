// Worked examples of one box, computed from the definitions: document 01's rows, 1 to 13, rows of
// requests #105 and #106, and stored boxes: the Rust's or, where request #106 doesn't compare with the Rust, the second
// implementation's.
#![tactic(auto)]
