#![tactic(auto)]
