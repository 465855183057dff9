// What an infinite product changes: the meaning of a blob over another sum, and where it differs; there is no code here.
#![tactic(auto)]
