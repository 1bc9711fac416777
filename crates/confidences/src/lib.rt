// The decoder for confidences, as definitions and theorems: specs/.
#![tactic(auto)]
