// The register's numbers, and the answer of a routine, with a place or without one.
#![tactic(auto)]

ghost use Rattle.std.specs.Prelude.{◌≡◌, eqb};
ghost use Rattle.answers.specs.Table.{outcome, outcome_at};
ghost use Rattle.answers.specs.Effect.{no_place};
ghost use Rattle.answers.specs.Refusals.{outcome_by, told, told_test};
ghost use Rattle.answers.specs.code.Numbers.{as_number};

// An answer and its detail; with 11 also the value that was found, with its sign, and 0 with every other answer. In this order it has
// sixteen bytes, which two registers take.
#[repr(C)]
#[derive(Clone, Copy, Debug, PartialEq, Eq)]
pub struct Outcome {
    pub answer: u8,
    pub value: i16,
    pub detail: usize,
}

// An outcome, and the place of what it refuses: the number of a bank's patch, where a message or a record of a unit's file starts; 0 where it
// is about no place.
#[repr(C)]
#[derive(Clone, Copy, Debug, PartialEq, Eq)]
pub struct Placed {
    pub outcome: Outcome,
    pub place: usize,
}

// A place, and the value that was found there.
#[derive(Clone, Copy, Debug, PartialEq, Eq)]
pub struct Found {
    pub place: usize,
    pub value: i16,
}

// Why a call is refused: with a byte that no nibble is, its index among the data bytes; with a value out of range, where it stands; with a
// bus half used, which.
#[derive(Clone, Copy, Debug, PartialEq, Eq)]
pub enum Refusal {
    NoMessage,
    Cut,
    Interrupted,
    OtherMaker,
    OtherDevice,
    OtherOpcode,
    WrongLength,
    NotAllowed,
    WideData(usize),
    WrongSum,
    OutOfRange(Found),
    HalfUsed(usize),
    NoRoom,
    OtherForm,
    OtherName,
    NotAccepted,
    TooMany,
}

// Done, with a detail.
pub fn done(detail: usize) -> Outcome
    ensures { result ≡ outcome 0 detail }
{
    Outcome {
        answer: 0,
        value: 0,
        detail,
    }
}

// Refused by a number, with a detail.
pub fn refused(answer: u8, detail: usize) -> Outcome
    ensures { result ≡ outcome answer detail }
{
    Outcome {
        answer,
        value: 0,
        detail,
    }
}

// Refused by 11, with the place and the value found there.
pub fn out_of_range(place: usize, value: i16) -> Outcome
    ensures { result ≡ outcome_at 11 place value }
{
    Outcome {
        answer: 11,
        value,
        detail: place,
    }
}

impl Outcome {
    // It refuses nothing.
    pub fn is_done(self) -> bool
        ensures { result ≡ eqb self.answer 0 }
    {
        self.answer == 0
    }
}

impl Refusal {
    // Its number in the register: the numbers stand here alone. 14 is withdrawn.
    fn number(self) -> u8
        ensures { result ≡ (outcome_by self).answer }
    {
        match self {
            Refusal::NoMessage => 1,
            Refusal::Cut => 2,
            Refusal::Interrupted => 3,
            Refusal::OtherMaker => 4,
            Refusal::OtherDevice => 5,
            Refusal::OtherOpcode => 6,
            Refusal::WrongLength => 7,
            Refusal::NotAllowed => 8,
            Refusal::WideData(_) => 9,
            Refusal::WrongSum => 10,
            Refusal::OutOfRange(_) => 11,
            Refusal::HalfUsed(_) => 12,
            Refusal::NoRoom => 13,
            Refusal::OtherForm => 15,
            Refusal::OtherName => 16,
            Refusal::NotAccepted => 20,
            Refusal::TooMany => 21,
        }
    }
}

// A refusal as it is told: its number, and of those that carry something the detail and value.
impl From<Refusal> for Outcome {
    ghost from_gives = { λ r o. o ≡ outcome_by r };

    fn from(refusal: Refusal) -> Outcome {
        let answer = refusal.number();
        match refusal {
            Refusal::WideData(index) => refused(answer, index),
            Refusal::OutOfRange(found) => out_of_range(found.place, found.value),
            Refusal::HalfUsed(bus) => refused(answer, bus),
            _ => refused(answer, 0),
        }
    }
}

// Done with a detail, or refused.
impl From<Result<usize, Refusal>> for Outcome {
    ghost from_gives = { λ r o. o ≡ told r };

    fn from(answer: Result<usize, Refusal>) -> Outcome {
        match answer {
            Ok(detail) => done(detail),
            Err(refusal) => refusal.into(),
        }
    }
}

// What a test comes to: done with detail 0, or refused.
impl From<Result<(), Refusal>> for Outcome {
    ghost from_gives = { λ r o. o ≡ told_test r };

    fn from(answer: Result<(), Refusal>) -> Outcome {
        match answer {
            Ok(()) => done(0),
            Err(refusal) => refusal.into(),
        }
    }
}

// An outcome that is about no place.
pub fn no_place(outcome: Outcome) -> Placed
    ensures { result ≡ no_place outcome }
{
    Placed { outcome, place: 0 }
}

// A value as a number of 64 bits, in two's complement: as C converts it.
pub fn as_number(value: i16) -> usize
    ensures { result ≡ as_number value }
{
    isize::from(value).cast_unsigned()
}
