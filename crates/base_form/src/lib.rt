// The base's form of a plan: document 01's bytes, without the nodes that request [2] adds. Definitions and laws, no code.
#![tactic(auto)]
