// Runs of calls, and what calls and answers alone say of each cell: definitions, in specs/. No code.
#![tactic(auto)]
