// No code: the laws of proofs/ say that a unit held as an image goes on as the unit itself.
#![tactic(auto)]
