// One instant as operations on sets of situations' numbers (specs/), and that these come to the moves of the definition (proofs/). No code.

#![tactic(auto)]
