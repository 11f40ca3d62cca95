// What every book keeps, whatever kind of post makes the calls: its rules, its entries until their release, its numbers. What is claimed
// stands in specs/ over the definitions of book, its proof in proofs/; there is no code here. It uses words, rules and book, and no kind
// of post: a crate of a post shows that each of its calls is a change (EachChanges in specs/Post.antt) and has all of this.
#![tactic(auto)]
