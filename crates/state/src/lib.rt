// The compiler's state while it walks a level.
#![tactic(auto)]
