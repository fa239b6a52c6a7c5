// Exact floats as integers, for the mirror theorem, and a float plus -0: definitions and lemmas. There is no code here.
#![tactic(auto)]
