// Blocks in rows and columns, as definitions and theorems: specs/.
#![tactic(auto)]
