// compute/common/: what layout algorithms share.
#![tactic(auto)]

pub mod scrollable_overflow;
pub mod sizing_keyword;
