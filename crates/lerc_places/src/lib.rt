// What refusals were before they told a place, and that they differ in nothing else; there is no code here.
#![tactic(auto)]
