// What may be claimed of sealed texts, and what not: the statements are in specs/, their proofs in proofs/. There is no function here.
// docs/ARGUMENT.md has each claim as a candidate would write it.
#![tactic(auto)]
