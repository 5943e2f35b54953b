// Document 01's marked cases, as theorems about the definitions.
#![tactic(auto)]
