// The uninterrupted run and the counter machine, as definitions.
#![tactic(auto)]
