// What is claimed of the reader, as definitions and theorems; there is no code here.
#![tactic(auto)]
