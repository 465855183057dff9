// All that is claimed of the reader, as one record and one proof of it; there is no code here.
#![tactic(auto)]
