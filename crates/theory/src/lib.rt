// What is proved of the order, of rewrite steps and of derivations. There is no code here.
#![tactic(auto)]
