// The records: step records, answer records and order records, as the fields that their bytes hold, read from these
// bytes and written as them. A field has the width of its bytes. This crate knows nothing of trees, nor of how steps
// are played.
#![tactic(auto)]

mod answers;
mod orders;
mod steps;

// A step record. Its kind is a number and no enum, since an ill-formed record may have any (specs/StepRecords:
// ill_formed).
#[derive(Clone, Copy)]
pub struct StepRecord {
    pub process: u8,
    pub kind: u8,
    pub zeros: u16,
    pub value: u32,
}

// What an operation answers: a put that it is done, a take a value or that there is none.
#[derive(Clone, Copy)]
pub enum Reply {
    Done,
    Value(u32),
    Nothing,
}

// An answer record.
#[derive(Clone, Copy)]
pub struct AnswerRecord {
    pub process: u8,
    pub reply: Reply,
    pub steps: u8,
    pub helps: u8,
    pub serial: u32,
    pub block: u32,
}

// An order record. Its kind is the number that its byte holds (specs/ReadOrders: read_order).
#[derive(Clone, Copy)]
pub struct OrderRecord {
    pub process: u8,
    pub kind: u8,
    pub serial: u16,
    pub block: u32,
}
