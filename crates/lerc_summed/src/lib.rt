// What the checksum refuses in calls, and that it changed nothing else; there is no code here.
#![tactic(auto)]
