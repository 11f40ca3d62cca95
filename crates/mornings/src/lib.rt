// Mornings at the bench: rows of calls on a single-beam book, and steps of the heads between them. That a call is accepted exactly where the
// conditions of P4 hold; that each is one of the changes that every book keeps to, so that all of kept holds of it; that a book made by calls
// is never refused for itself; that no call moves a state, so demands 2 and 3 stand. What is claimed stands in specs/, its proof in proofs/;
// there is no code here. It uses single_beam and kept, and exact and startup for the demands.
#![tactic(auto)]
