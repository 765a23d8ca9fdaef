// Computed examples to what may be claimed of sealed texts: the statements are in specs/, their proofs in proofs/. There is no function
// here. docs/ARGUMENT.md has each claim as a candidate would write it.
#![tactic(auto)]
