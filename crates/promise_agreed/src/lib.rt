// No code: the engine of request (v) beside the policer, over runs.
#![tactic(auto)]
