// The mirror image of a run has the same verdicts and offsets, and whole quarter pixels have a verdict: laws of `reach`. There is no code here.
#![tactic(auto)]
