// No code: the laws of proofs/ say that two units and the link between them keep demand 3.
#![tactic(auto)]
