// compute/oof.rs, `layout_oof_box`: one out-of-flow box, cut where the host is asked (document 01, "One box").
#![tactic(auto)]

pub mod dialogue;
pub mod question;
pub mod sizing;
