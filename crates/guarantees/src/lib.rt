// What the operations are good for: theorems over what they are proved to give back. There is no code here.
#![tactic(auto)]
