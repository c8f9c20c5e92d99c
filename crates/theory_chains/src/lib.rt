// Lists of spaces in the links, with the cells that stand in them. No code.
#![tactic(auto)]
