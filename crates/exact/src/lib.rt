// Request [10]: what a level of a plan asks of a key, and a plain matcher, as definitions in specs/, and what is shown of them in proofs/.
// No code.
#![tactic(auto)]
