// No code: demand 3, that heads which obey the rules fall in step. specs/Demand.antt states it over the rules' own tables, states and judged
// step; specs/World.antt is the numeric view that the proof works in; docs/PROOF.md tells the argument. It may use words, hearers, rules,
// exact and runs.
#![tactic(auto)]
