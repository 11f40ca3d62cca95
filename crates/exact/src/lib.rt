// Demand 2 over the definitions: a step is accepted just when it is enabled on a table and a state that fit, and an accepted step
// keeps the state rules, from every state that fits, whether or not a run reaches it. What is claimed stands in specs/, its proof in
// proofs/; there is no code here. It uses words and rules.
#![tactic(auto)]
