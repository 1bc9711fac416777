// The rule of projection and vote, as definitions and theorems: specs/.
#![tactic(auto)]
