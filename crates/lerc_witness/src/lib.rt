// A blob or a call for each refusal, each rule of its place and each kind of body, computed by the checker; there is no code here.
#![tactic(auto)]
