// The theory of the plain reader (01, Reader): definitions in specs/, theorems in proofs/, no code.
#![tactic(auto)]
