// The simplifier: canonical forms, matching modulo AC, the results of one step, the smallest of them: definitions and
// laws. There is no code here.
#![tactic(auto)]
