// That the numbers of demand 3 and of request (xiii) can't be made smaller: read specs/Late.antt and specs/Met.antt. No code.
#![tactic(auto)]
