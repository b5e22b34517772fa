// Laws alone, no code: the lines of an event are within the buffer that was asked for.
#![tactic(auto)]
