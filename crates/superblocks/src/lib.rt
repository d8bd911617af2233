// Where a block's superblock stands, defined in specs/ and shown of every run. There is no code here.
#![tactic(auto)]
