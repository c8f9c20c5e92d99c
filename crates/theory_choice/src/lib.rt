// Whichever free spaces the cells take, what is said is the same but for the spaces. No code.
#![tactic(auto)]
