// Lists as multisets and as rows over any test of likeness: definitions and laws. There is no code here.
#![tactic(auto)]
