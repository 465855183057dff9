// What is claimed of the reader for C, as definitions and theorems; there is no code here.
#![tactic(auto)]
