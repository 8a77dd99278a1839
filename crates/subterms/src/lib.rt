// Terms as parts of their node words, by offset: definitions and laws. There is no code here.
#![tactic(auto)]
