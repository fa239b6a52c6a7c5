// Worked examples of a call, computed from its definition: stored runs, and the inputs that tell the readings of document 01 apart.
#![tactic(auto)]
