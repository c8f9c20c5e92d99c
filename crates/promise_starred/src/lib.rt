// No code: document 01's starred cases as one table (specs/), and one theorem over it, by computation (proofs/).
#![tactic(auto)]
