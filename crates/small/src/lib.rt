// Small cases of the nearest word, computed from its definition: there is no code here.
#![tactic(auto)]
