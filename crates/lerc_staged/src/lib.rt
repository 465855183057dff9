// What staging and publishing do together, in calls; there is no code here.
#![tactic(auto)]
