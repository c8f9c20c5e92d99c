// That no trace reaches the line of a refused slot, as a theorem over listings: there is no code here.
#![tactic(auto)]
