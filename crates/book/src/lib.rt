// The types of the rule book: a unit, an event, what a turn answers. The rules themselves are in specs/, and have no code of their own.
#![tactic(auto)]

ghost use Rattle.std.specs.Prelude.{◌≡◌};
ghost use Rattle.book.specs.Refusals.{refusal_number};

// Class, priority, and residual error rate: 1 low, 2 high, 0 not provided.
#[derive(Clone, Copy, PartialEq, Eq, Default)]
pub struct Terms {
    pub class: u8,
    pub priority: u8,
    pub rer: u8,
}

// A unit, held by the caller. What a state does not use is 0. Arrays with a length beside them: memory is fixed here, 01 names the waiting list's form, and
// a caller's unit may have any length, which refusal 9 speaks of (`sound_of`).
#[derive(Clone, Copy)]
pub struct Unit {
    // The unit's name, in the first `letters` places.
    pub name: [u8; 32],
    // The identifiers that wait, in sending order, in the first `count` places.
    pub waiting: [u16; 8],
    // The kept frame of Start-multi, in the first `octets` places.
    pub kept: [u8; 554],
    // 0 Idle, 1 Start-single, 2 Start-multi, 3 Ending, 4 Associated. A number, since a caller's may be any, and soundness (`sound_of`) tests it.
    pub state: u8,
    // The limits in ticks: start, end, inactivity.
    pub start: u16,
    pub end: u16,
    pub inactivity: u16,
    // Ticks since the state was entered (in Associated, since the last message).
    pub elapsed: u16,
    // The dialogue's.
    pub terms: Terms,
    pub letters: usize,
    pub count: usize,
    pub octets: usize,
}

// An event, read from its octets.
#[derive(Clone, Copy, PartialEq, Eq)]
pub enum Event {
    // Octets that are no event: refusal 8. Most matches on an event have an arm for it; an Option around the event would be opened in the same places.
    Malformed,
    // 01, or (true) 02.
    Transfer(bool, Terms),
    // 03
    End,
    // 04
    Tick,
    // 10
    StartAsked(Terms),
    // 11, accepted or not
    StartAnswered(bool),
    // 12
    Data,
    // 13
    EndAsked,
    // 14, accepted or not
    EndAnswered(bool),
    // 15
    Aborted,
    // 16
    Dropped,
}

// Why nothing was done; beside each its number.
#[derive(Clone, Copy, PartialEq, Eq)]
pub enum Refusal {
    // 1: the state does not take this event.
    WrongState,
    // 2: the frame of a request has a fault or extension fields, or its confirmation does not go with its kind.
    BadFrame,
    // 3: a multi-shot request in Associated has terms other than the dialogue's.
    OtherTerms,
    // 4: the identifier of an 02 already waits.
    Waits,
    // 5: an 02 comes while eight identifiers wait.
    Full,
    // 6: the lent buffer is below 1,024 octets.
    NoRoom,
    // 7: setup is outside its limits.
    BadSetup,
    // 8: the octets are no event.
    NoEvent,
    // 9: the unit handed in is not sound.
    Unsound,
}

impl From<Refusal> for u8 {
    ghost from_gives = { λ r n. n ≡ refusal_number r };

    fn from(r: Refusal) -> u8 {
        match r {
            Refusal::WrongState => 1,
            Refusal::BadFrame => 2,
            Refusal::OtherTerms => 3,
            Refusal::Waits => 4,
            Refusal::Full => 5,
            Refusal::NoRoom => 6,
            Refusal::BadSetup => 7,
            Refusal::NoEvent => 8,
            Refusal::Unsound => 9,
        }
    }
}

// How many lines an event gave, and how many octets of the buffer they take.
#[derive(Clone, Copy, PartialEq, Eq)]
pub struct Done {
    pub lines: usize,
    pub octets: usize,
}

pub type Verdict = Result<Done, Refusal>;

// The unit after an event, and the answer.
#[derive(Clone, Copy)]
pub struct Turn {
    pub unit: Unit,
    pub verdict: Verdict,
}
