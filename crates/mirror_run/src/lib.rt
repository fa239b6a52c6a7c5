// The mirror theorem of the whole run: definitions and proofs over the definition of a call in `run`. There is no code here.
#![tactic(auto)]
