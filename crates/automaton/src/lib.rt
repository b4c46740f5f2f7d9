// No code: the synchronizer as document 01 bounds and amends it, and what holds after any list of actions.
#![tactic(auto)]
