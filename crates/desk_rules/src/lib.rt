// What the delivery desk does, defined; and that it delivers terms in the root order of their puts. There is no code
// here but the enum of its refusals, with their numbers.
#![tactic(auto)]

ghost use Rattle.std.specs.Prelude.{◌≡◌};
ghost use Rattle.desk_rules.specs.DeskRefusals.{desk_number};

// Why a call or a record is refused.
#[derive(Clone, Copy, Debug, PartialEq, Eq)]
pub enum DeskRefusal {
    // by the queue: its number there, since the desk knows the queue's calls as C has them
    Queue(u32),
    Licence,
    ForeignEntry,
    OutputShort,
}

// The paper's number of a refusal.
impl From<DeskRefusal> for u32 {
    ghost from_gives = { λ why n. n ≡ desk_number why };

    #[tactic(auto, unfolding(crate::specs::DeskRefusals::desk_number))]
    fn from(why: DeskRefusal) -> u32 {
        match why {
            DeskRefusal::Queue(n) => n,
            DeskRefusal::Licence => 13,
            DeskRefusal::ForeignEntry => 14,
            DeskRefusal::OutputShort => 10,
        }
    }
}
