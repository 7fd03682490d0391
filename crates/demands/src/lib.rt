// The three demands (rule 17.2), each as theorems in its own words, from the contracts of the entries alone. It has no code.
#![tactic(auto)]
