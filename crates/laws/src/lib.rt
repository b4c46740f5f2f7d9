// No code: the words that definitions are written with, and their laws.
#![tactic(auto)]
