// What knows nothing of queues: a choice by a test, numbers between two numbers, members and beginnings of lists, bytes
// stored in a list. There is no code here.
#![tactic(auto)]
