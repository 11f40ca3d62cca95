// The bench sheet: C1 to C13 of document 01 and the listing of table E, as one list under one theorem about the rules. What is
// claimed stands in specs/, with the values of the document, its proof in proofs/; there is no code here. It uses words, hearers and rules.
#![tactic(auto)]
