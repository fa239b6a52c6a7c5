// The mirror law of one box: definitions and proofs over the definitions of `oof_box`. There is no code here.
#![tactic(auto)]
