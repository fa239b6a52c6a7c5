// What CSS says of one axis, as laws: statements and proofs over the definitions of `oof_axis`. There is no code here.
#![tactic(auto)]
