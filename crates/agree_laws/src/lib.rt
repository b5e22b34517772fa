// Laws alone, no code: the unit by value and the unit in place agree.
#![tactic(auto)]
