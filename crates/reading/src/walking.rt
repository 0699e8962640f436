// The walk: the first message that starts at a place or later.
ghost use Rattle.std.specs.Prelude.{◌≡◌, ◌^◌, ◌<◌, not, eqb};
ghost use Rattle.std.proofs.Math.Option.{none};
ghost use Rattle.judging.specs.code.Heard.{told_heard};
ghost use Rattle.reading.specs.code.Told.{numbers_told, end_from, report_from, report_or, walked};

use crate::listing::WIDTH;
use answers::{Outcome, Refusal};
use frames::Ending;
use judging::Heard;

// Where a message starts and ends, its outcome, and how many bytes between the two are real time.
#[repr(C)]
#[derive(Clone, Copy, Debug, PartialEq, Eq)]
pub struct Report {
    pub start: usize,
    pub end: usize,
    pub outcome: Outcome,
    pub noise: usize,
}

impl Report {
    // Whether it is of a message, and does not tell that there is none: by its number, since this is the struct of the C interface.
    pub fn is_found(self) -> bool
        ensures { result ≡ not (eqb self.outcome.answer 1) }
    {
        self.outcome.answer != Outcome::from(Refusal::NoMessage).answer
    }

    // Its numbers, the value in two's complement.
    pub fn numbers(self) -> [usize; WIDTH]
        ensures { result ≡ numbers_told self }
    {
        [
            self.start,
            self.end,
            usize::from(self.outcome.answer),
            self.outcome.detail,
            answers::as_number(self.outcome.value),
            self.noise,
        ]
    }
}

// The report of a message from what was heard of it, its F0H at `start`: a complete one ends behind its F7H, any other before the byte
// that ends it. The callers have seen that its end is a place.
pub(crate) fn report_of(start: usize, heard: Heard) -> Report
    requires { end_from start heard.span < 2 ^ 64 }
    ensures { result ≡ report_from start (told_heard heard) }
{
    let closing = match heard.span.ending {
        Ending::Whole => 1,
        Ending::Interrupted | Ending::Cut => 0,
    };
    Report {
        start,
        end: start + 1 + heard.span.length + closing,
        outcome: judging::outcome_of(heard.judged),
        noise: heard.span.noise,
    }
}

// No message: start and end are the input's length.
pub(crate) fn no_message(length: usize) -> Report
    ensures { result ≡ report_or length none }
{
    Report {
        start: length,
        end: length,
        outcome: Refusal::NoMessage.into(),
        noise: 0,
    }
}

// The walk: start, end, outcome and noise of the first message that starts at `place` or later; 1 where there is none. By way of
// `walk_with_bytes` it was measured slower: docs/DECISIONS.md, 'Two walks beside each other'.
pub fn walk(s: &[u8], place: usize) -> Report
    ensures { result ≡ walked s.now place }
{
    let start = frames::find_start_from(s, place);
    if s.len() <= start {
        return no_message(s.len());
    }
    report_of(start, judging::judge_from(&s[start + 1..]))
}
