// Worked examples of the definitions, by computation from bytes (proofs/). No code.

#![tactic(auto)]
