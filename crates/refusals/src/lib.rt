// No code: the theorems about refusals, by which numbers each call refuses and that a refusal alters no lent byte.
#![tactic(auto)]
