// The mirror law of one axis: definitions and proofs over the definitions of `oof_axis`. There is no code here.
#![tactic(auto)]
