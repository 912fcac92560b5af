// The theorems about the definitions. No code: they stand in specs/.
#![tactic(auto)]
