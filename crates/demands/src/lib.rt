// The three demands of the request and the ten cases of document 01 as theorems about the definitions. There is no code here.

#![tactic(auto)]
