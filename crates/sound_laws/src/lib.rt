// No code: the laws of proofs/ say that a turn keeps a sound unit sound.
#![tactic(auto)]
