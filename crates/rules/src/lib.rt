// The written rules: document 01 as definitions in specs/, and what is shown of them in proofs/. No code.
#![tactic(auto)]
