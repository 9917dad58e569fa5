// What a day answers, place by place: statements and proofs alone.

#![tactic(auto)]
