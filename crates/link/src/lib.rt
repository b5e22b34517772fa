// Two units and a link: demand 3. Specification and theorem; no code of its own.
#![tactic(auto)]
