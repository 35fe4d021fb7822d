// Calls of the code, one after another: what the promises of the functions that are linked say of a whole
// run on the words of a shelf.
//
// There is no function here. What is seen of a call and of a run, and what the model says of it, is in
// specs/; that runs go as the model's, and that the demands so hold of the words, the answers and the lent
// buffers that the code leaves, is in proofs/.

#![tactic(auto)]
