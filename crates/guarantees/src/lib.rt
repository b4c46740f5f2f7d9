// No code: the bridge from the code's arrays to the automaton, and the demands as theorems about the contracts' definitions.
#![tactic(auto)]
