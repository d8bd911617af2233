// Step records: read from their bytes, and looked at.
ghost use Rattle.std.specs.Prelude.{◌≡◌};
ghost use Rattle.record.specs.StepRecords.{step_record, is_begin_put, ill_formed};

use crate::StepRecord;

impl From<[u8; 8]> for StepRecord {
    ghost from_gives = { λ bytes x. x ≡ step_record bytes };

    fn from(bytes: [u8; 8]) -> StepRecord {
        StepRecord {
            process: bytes[0],
            kind: bytes[1],
            zeros: u16::from_le_bytes([bytes[2], bytes[3]]),
            value: u32::from_le_bytes([bytes[4], bytes[5], bytes[6], bytes[7]]),
        }
    }
}

impl StepRecord {
    #[tactic(auto, unfolding(crate::specs::StepRecords::is_begin_put))]
    pub fn is_begin_put(self) -> bool
        ensures { result ≡ is_begin_put self }
    {
        self.kind == 1
    }

    // Whether it is ill-formed, where there are p processes. The value counts last: only a begin of a put has one.
    #[tactic(auto, unfolding(crate::specs::StepRecords::ill_formed))]
    pub fn is_ill_formed(self, p: u32) -> bool
        ensures { result ≡ ill_formed p self }
    {
        p <= self.process as u32
            || 2 < self.kind
            || self.zeros != 0
            || (!self.is_begin_put() && self.value != 0)
    }
}
