// Answer records: read from their bytes and written as them.
ghost use Rattle.std.specs.Prelude.{◌≡◌};
ghost use Rattle.record.specs.AnswerRecords.{reply_kind, reply_value, bytes_of_answer};
ghost use Rattle.record.specs.ReadAnswers.{reply_for, answer_record};

use crate::{AnswerRecord, Reply};

impl Reply {
    // Its number in an answer record.
    #[tactic(auto, unfolding(crate::specs::AnswerRecords::reply_kind))]
    pub fn kind(self) -> u8
        ensures { result ≡ reply_kind self }
    {
        match self {
            Reply::Done => 1,
            Reply::Value(_) => 2,
            Reply::Nothing => 3,
        }
    }

    // Its value in an answer record, 0 where it has none.
    #[tactic(auto, unfolding(crate::specs::AnswerRecords::reply_value))]
    pub fn value(self) -> u32
        ensures { result ≡ reply_value self }
    {
        match self {
            Reply::Done => 0,
            Reply::Value(v) => v,
            Reply::Nothing => 0,
        }
    }

    // The reply that a kind and a value stand for.
    #[tactic(auto, unfolding(crate::specs::ReadAnswers::reply_for))]
    fn of(kind: u8, value: u32) -> Reply
        ensures { result ≡ reply_for kind value }
    {
        match kind {
            1 => Reply::Done,
            2 => Reply::Value(value),
            _ => Reply::Nothing,
        }
    }
}

impl From<[u8; 16]> for AnswerRecord {
    ghost from_gives = { λ bytes a. a ≡ answer_record bytes };

    fn from(bytes: [u8; 16]) -> AnswerRecord {
        let value = u32::from_le_bytes([bytes[4], bytes[5], bytes[6], bytes[7]]);
        AnswerRecord {
            process: bytes[0],
            reply: Reply::of(bytes[1], value),
            steps: bytes[2],
            helps: bytes[3],
            serial: u32::from_le_bytes([bytes[8], bytes[9], bytes[10], bytes[11]]),
            block: u32::from_le_bytes([bytes[12], bytes[13], bytes[14], bytes[15]]),
        }
    }
}

impl From<AnswerRecord> for [u8; 16] {
    ghost from_gives = { λ a bytes. bytes ≡ bytes_of_answer a };

    fn from(a: AnswerRecord) -> [u8; 16] {
        let [v0, v1, v2, v3] = a.reply.value().to_le_bytes();
        let [s0, s1, s2, s3] = a.serial.to_le_bytes();
        let [b0, b1, b2, b3] = a.block.to_le_bytes();
        [
            a.process,
            a.reply.kind(),
            a.steps,
            a.helps,
            v0,
            v1,
            v2,
            v3,
            s0,
            s1,
            s2,
            s3,
            b0,
            b1,
            b2,
            b3,
        ]
    }
}
