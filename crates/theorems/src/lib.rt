// What holds of the whole library: demand 1 as one table of answers, demand 2's round trips, demand 3's damage with slipped neighbours, what
// was found, how noisy the line was, the starred examples, refusal 14 withdrawn.
// No routine stands here: specs/ has the statements, readable without the proofs, over the definitions that the contracts below cite.
#![tactic(auto)]
