// A table of calls of the model (specs/Calls.antt), computed. No code.
#![tactic(auto)]
