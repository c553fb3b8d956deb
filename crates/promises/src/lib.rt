// No code: the promises of the library as theorems over its definitions, in proofs/.
#![tactic(auto)]
