// The value that each operation received.
ghost use Rattle.std.specs.Prelude.{◌≡◌, ◌≤◌, length, map};
ghost use Rattle.base.specs.Members.{All};
ghost use Rattle.record.specs.declared.AnswerRecord.{AnswerRecord};
ghost use Rattle.record.specs.ReadAnswers.{answer_record};
ghost use Rattle.desk_terms.specs.Clauses.Slots.{slot_of, HasSlot, entered};

use record::AnswerRecord;

// The slot of an operation, where each process has l of them.
pub fn slot_of(l: u32, process: u32, serial: u32) -> usize
    requires { (l ≤ 500) × (1 ≤ serial) }
    ensures { result ≡ slot_of l process serial }
{
    process as usize * l as usize + serial as usize - 1
}

// Stores in the slot of each answer's operation the value that it received, 0 for none: 0 is no entry. From the last
// answer to the first, so that of two answers to one operation the first counts, as in the definition; a run never gives
// two.
pub fn receive(answers: &[[u8; 16]], l: u32, received: &mut [u32])
    requires small { l ≤ 500 }
    requires slots { All (λ (a : AnswerRecord). HasSlot l (length received.old) a.process a.serial) (map answer_record answers.now) }
    ensures { received.new ≡ entered l (map answer_record answers.now) received.old }
{
    for bytes in answers.iter().rev() {
        let a = AnswerRecord::from(*bytes);
        let slot = slot_of(l, a.process as u32, a.serial);
        received[slot] = a.reply.value();
    }
}
