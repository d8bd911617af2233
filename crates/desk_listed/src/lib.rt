// What the desk delivers of a list of which the queue refuses nothing. It is above the queue library and knows its public
// calls and the codecs of bytes and records, nothing else.
#![tactic(auto)]

pub mod listed;
