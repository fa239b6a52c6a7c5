// Layers over runs: a run keeps them, placement doesn't read them, and the mirror image is drawn in the same order. There is no code here.
#![tactic(auto)]
