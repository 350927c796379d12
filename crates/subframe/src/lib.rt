// What a subframe sends: definitions and their laws. No code.
#![tactic(auto)]
