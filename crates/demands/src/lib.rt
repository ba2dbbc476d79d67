// The user's demands, and the readings on the bench, as theorems about the definitions below: there is no code here.
#![tactic(auto)]
