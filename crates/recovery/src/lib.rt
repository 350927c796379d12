// The payload that a grid was built from: definitions and their laws. No code.
#![tactic(auto)]
