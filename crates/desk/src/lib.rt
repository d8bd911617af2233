// The delivery desk of the legal dictionary: what the takes of a list received, as terms in root order. It is above the
// queue library and knows its public calls and the codecs of bytes and records, nothing else.
#![tactic(auto)]

pub mod deliver;
pub mod exports;

// What the desk returns, for C: the number of a refusal, or 0 and the number of terms.
#[repr(C)]
#[derive(Clone, Copy)]
pub struct DeskDelivery {
    pub refusal: u32,
    pub count: u64,
}
