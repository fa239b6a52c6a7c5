// tree/: candidates and layouts.
#![tactic(auto, unfolding(crate::specs::Codes::edge_of, crate::specs::Codes::edge_code, crate::specs::Static::from_alignment, crate::specs::Static::shifted_axis, crate::specs::Static::translated))]

pub mod layout;
