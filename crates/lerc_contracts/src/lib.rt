// Upstream's specification functions, and the laws by which its contracts follow from ours; there is no code here.
#![tactic(auto)]
