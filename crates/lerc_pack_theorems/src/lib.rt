// What packs promise together, in calls; there is no code here.
#![tactic(auto)]
