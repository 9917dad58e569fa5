// The bench sheet of exact results, K1 to K14, as one table. It stands in specs/, and there is no code.

#![tactic(auto)]
