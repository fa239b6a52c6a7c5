// What the touch driver reads, over runs: what a finished one gives it, that quarter pixels meet no refusal, and that two whose
// boxes have the same location and size give it the same. There is no code here.
#![tactic(auto)]
