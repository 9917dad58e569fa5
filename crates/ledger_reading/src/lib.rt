// The theorem that joins the machine and compensation, over their definitions. Nothing here runs.

#![tactic(auto)]
