// What may be claimed of records, rings and books, and of marking by equal records: the statements are in specs/, their proofs in proofs/.
// There is no function here. docs/ARGUMENT.md has each claim as a candidate would write it.
#![tactic(auto)]
