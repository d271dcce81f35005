// The door table: worked files of document 01 with their whole plans, in specs/, each proved of the written rules in proofs/. No code.
#![tactic(auto)]
