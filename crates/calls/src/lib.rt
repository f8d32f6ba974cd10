// Lists of calls on a state: definitions and theorems, no code.
#![tactic(auto)]
