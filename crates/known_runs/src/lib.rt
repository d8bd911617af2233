// The known runs M1 to M11, as rows that the definitions of the calls compute. There is no code here.
#![tactic(auto)]
