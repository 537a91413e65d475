// Why a call is refused. The cases stand in the order of the paper's numbers, 1 to 17.
ghost use Rattle.std.specs.Prelude.{◌≡◌};
ghost use Rattle.sheet.specs.Refusals.{number_of};

#[derive(Clone, Copy, Debug, PartialEq, Eq)]
pub enum Reason {
    Cut,
    Version,
    Length,
    Count,
    Record,
    Processor,
    Period,
    Deadline,
    Phases,
    Busy,
    Late,
    Room,
    State,
    Row,
    Early,
    Live,
    Clock,
}

impl From<Reason> for u8 {
    ghost from_gives = { λ reason number. number ≡ number_of reason };

    fn from(reason: Reason) -> u8 {
        match reason {
            Reason::Cut => 1,
            Reason::Version => 2,
            Reason::Length => 3,
            Reason::Count => 4,
            Reason::Record => 5,
            Reason::Processor => 6,
            Reason::Period => 7,
            Reason::Deadline => 8,
            Reason::Phases => 9,
            Reason::Busy => 10,
            Reason::Late => 11,
            Reason::Room => 12,
            Reason::State => 13,
            Reason::Row => 14,
            Reason::Early => 15,
            Reason::Live => 16,
            Reason::Clock => 17,
        }
    }
}
