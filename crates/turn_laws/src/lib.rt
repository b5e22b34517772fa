// Laws alone, no code: what the lines that an event laid and the unit that it left are to the rule book. One law for each way out of an event, for both
// forms of a unit.
#![tactic(auto)]
