// What the claims about calls must not hold of: runs, logs and forecasts that break one of them. There is no code here.
#![tactic(auto)]
