// When a block went in: the number of the record that wrote it, defined in specs/ and shown of every run. There is no
// code here.
#![tactic(auto)]
