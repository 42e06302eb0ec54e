// 01's starred cases, as one theorem about the definitions: proofs/Starred.antt. No code.
#![tactic(auto)]
