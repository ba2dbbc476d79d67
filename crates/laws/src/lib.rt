// Mathematics that the other crates cite: there is no code here.
#![tactic(auto)]
