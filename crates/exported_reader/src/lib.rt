// The exported calls as a reader of parts (01, Reader): definitions in specs/, demand 3 of lists
// of calls in proofs/, no code.
#![tactic(auto)]
