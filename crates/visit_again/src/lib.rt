// What is shown is read back: theorems on the definitions of visit_figures and visit_typed, in specs/. There is no code.

#![tactic(auto)]
