// Reading straight from the cable: a reader that is fed what has arrived so far. Its record goes in by value and comes back with what the
// call tells; `exports` has the same with the record lent.
#![tactic(auto)]

pub mod room;

ghost use Rattle.std.specs.Prelude.{◌≡◌, true, false, [], ◌+◌, ◌≤◌, length};
ghost use Rattle.answers.specs.Refusals.{told_test};
ghost use Rattle.streams.specs.Bytes.{real_time_in};
ghost use Rattle.judging.specs.code.Judged.{told_judged};
ghost use Rattle.cable.specs.Cable.{limit, held_by, resting, fresh_record, goes, feeding, last_told, ending, Leaves};
ghost use Rattle.cable.specs.code.Steps.{size_told, unreported, reported, closing, grown};

use crate::room::append;
use answers::Refusal;
use frames::Ending;
use judging::{Accepted, bytes_of, outcome_of};
use messages::kinds::{MasterParameters, kind_of};
use reading::recording::Reading;
use reading::walking::Report;

// So many bytes are taken at most.
pub const LIMIT: usize = 0xFFFF_FFFF;

// Room for the longest message.
pub const ROOM: usize = MasterParameters::LENGTH;

// A reader's record. Inside a message: its bytes behind F0H so far, real time dropped, as many as there is room for, their count, its
// start, and the real time in it so far. After a dump's report, until the next call that is done: its packed bytes, and their count. Else
// zeros. The bytes taken so far; whether the end was declared. The struct of the C interface: so flags, and a count beside the bytes.
#[repr(C)]
#[derive(Clone, Copy)]
pub struct Cable {
    pub bytes: [u8; ROOM],
    pub inside: bool,
    pub over: bool,
    pub count: usize,
    pub start: usize,
    pub noise: usize,
    pub taken: usize,
}

// What a call tells: how many bytes it took, whether a message ended with it, and that message's report with the bytes that come with
// its answer. Where none ended, all zero; with 1 the bytes taken so far as start and end, with 21 no more than that number. The struct of the
// C interface: so a flag beside the report.
#[repr(C)]
#[derive(Clone, Copy)]
pub struct Fed {
    pub reading: Reading,
    pub taken: usize,
    pub ended: bool,
}

// The record behind a call, and what it tells.
#[derive(Clone, Copy)]
pub struct Step {
    pub state: Cable,
    pub fed: Fed,
}

// How many packed bytes come with what a message comes to. No method: neither `Result` nor what is in it is of this crate.
fn size_told(judged: Result<Accepted, Refusal>) -> usize
    ensures { result ≡ size_told (told_judged judged).outcome }
{
    match judged {
        Ok(accepted) => kind_of(accepted.opcode).packed_size(),
        Err(_) => 0,
    }
}

impl Fed {
    // What a call tells where no message ended with it.
    fn no_report(place: usize, answer: Result<(), Refusal>, taken: usize) -> Fed
        ensures { result ≡ unreported place (told_test answer) taken }
    {
        Fed {
            reading: Reading {
                report: Report {
                    start: place,
                    end: place,
                    outcome: answer.into(),
                    noise: 0,
                },
                bytes: [0; 4],
            },
            taken,
            ended: false,
        }
    }

    // What a call tells with which a message ended.
    fn report(
        judged: Result<Accepted, Refusal>,
        start: usize,
        end: usize,
        noise: usize,
        taken: usize,
    ) -> Fed
        ensures { result ≡ reported (told_judged judged) start end noise taken }
    {
        Fed {
            reading: Reading {
                report: Report {
                    start,
                    end,
                    outcome: outcome_of(judged),
                    noise,
                },
                bytes: bytes_of(judged),
            },
            taken,
            ended: true,
        }
    }
}

impl Cable {
    // No message is open, and no packed bytes are there.
    #[tactic(auto, unfolding(crate::specs::Cable::cleared))]
    fn at_rest(taken: usize, over: bool) -> Cable
        ensures { result ≡ resting [] taken over }
    {
        Cable {
            bytes: [0; ROOM],
            inside: false,
            over,
            count: 0,
            start: 0,
            noise: 0,
            taken,
        }
    }

    // More of the message that is open, its real time dropped, as much as there is room for. The callers have counted the real time.
    fn append(&mut self, more: &[u8], noise: usize)
        requires { noise ≡ real_time_in more.now }
        ensures state { self.new ≡ grown self.old more.now }
        ensures fits { self.new.count ≤ ROOM }
    {
        self.count = append(&mut self.bytes, self.count, more, noise);
    }

    // The message has ended at `end`, its packed bytes stand in the room: its report, told by a call that took `taken` bytes.
    fn ended(&mut self, judged: Result<Accepted, Refusal>, end: usize, taken: usize) -> Fed
        ensures { Leaves (closing self.old (told_judged judged) end taken) self.new result }
    {
        let fed = Fed::report(judged, self.start, end, self.noise, taken);
        self.inside = false;
        self.over = false;
        self.count = size_told(judged);
        self.start = 0;
        self.noise = 0;
        self.taken = end;
        fed
    }

    // Inside a message: on to its end, or all of the input. The caller below has seen that one is open, and that the places fit.
    #[tactic(auto, using(crate::proofs::Spans::spans))]
    fn follow(&mut self, input: &[u8]) -> Fed
        requires inside { self.old.inside ≡ true }
        requires before_end { self.old.over ≡ false }
        requires fits { self.old.taken + length input.now ≤ limit }
        ensures { Leaves (goes self.old input.now) self.new result }
    {
        let span = frames::find_end(input);
        let n = span.length;
        let end = self.taken + n;
        self.noise = self.noise.min(self.taken) + span.noise;
        match span.ending {
            Ending::Interrupted => {
                self.bytes = [0; ROOM];
                self.ended(Err(Refusal::Interrupted), end, n)
            }
            Ending::Cut => {
                self.append(&input[..n], span.noise);
                self.taken = end;
                Fed::no_report(0, Ok(()), n)
            }
            Ending::Whole => {
                self.append(&input[..n], span.noise);
                let mut packed = [0; ROOM];
                let judged = judging::record_kept(&self.bytes[..self.count], &mut packed);
                self.bytes = packed;
                self.ended(judged, end + 1, n + 1)
            }
        }
    }

    // Outside a message: on to the end of the next one, or all of the input. A message that stands there whole is read where it stands.
    // The caller below has seen that none is open, and that the places fit.
    #[tactic(auto, using(crate::proofs::Spans::spans))]
    fn seek(&mut self, input: &[u8]) -> Fed
        requires outside { self.old.inside ≡ false }
        requires fits { self.old.taken + length input.now ≤ limit }
        ensures { Leaves (goes self.old input.now) self.new result }
    {
        let i = frames::find_start(input);
        let start = self.taken + i;
        *self = Cable::at_rest(start, false);
        if input.len() <= i {
            return Fed::no_report(0, Ok(()), i);
        }
        let rest = &input[i + 1..];
        let heard = judging::record_from(rest, &mut self.bytes);
        let span = heard.span;
        let n = i + 1 + span.length;
        let end = start + 1 + span.length;
        self.start = start;
        self.noise = span.noise;
        match span.ending {
            Ending::Cut => {
                self.inside = true;
                self.taken = end;
                self.append(&rest[..span.length], span.noise);
                Fed::no_report(0, Ok(()), n)
            }
            Ending::Whole => self.ended(heard.judged, end + 1, n + 1),
            Ending::Interrupted => self.ended(heard.judged, end, n),
        }
    }

    // What a feed makes of a record: 1 behind the end, 21 where the bytes would be too many, and then nothing changes.
    #[tactic(auto, unfolding(crate::specs::Cable::feeding))]
    fn take(&mut self, input: &[u8]) -> Fed
        ensures { Leaves (feeding self.old input.now) self.new result }
    {
        if self.over {
            return Fed::no_report(self.taken, Err(Refusal::NoMessage), 0);
        }
        if LIMIT < self.taken.saturating_add(input.len()) {
            return Fed::no_report(0, Err(Refusal::TooMany), 0);
        }
        if self.inside {
            return self.follow(input);
        }
        self.seek(input)
    }

    // What the declared end tells: 2 for the message that is open, else 1.
    fn last(&self) -> Fed
        ensures { result ≡ last_told self.now.taken (held_by self.now) }
    {
        if self.inside {
            return Fed::report(
                Err(Refusal::Cut),
                self.start,
                self.taken,
                self.noise.min(self.taken),
                0,
            );
        }
        Fed::no_report(self.taken, Err(Refusal::NoMessage), 0)
    }

    // What the declared end makes of a record; behind it nothing changes.
    #[tactic(auto, unfolding(crate::specs::Cable::ending))]
    fn end(&mut self) -> Fed
        ensures { Leaves (ending self.old) self.new result }
    {
        if self.over {
            return Fed::no_report(self.taken, Err(Refusal::NoMessage), 0);
        }
        let fed = self.last();
        *self = Cable::at_rest(self.taken, true);
        fed
    }
}

// A fresh start.
pub fn fresh() -> Cable
    ensures { result ≡ fresh_record }
{
    Cable::at_rest(0, false)
}

// Takes bytes up to the end of the next message, or all if none ends, and tells how many, with the report or that none has ended. Refused by
// 1 behind the end, by 21 where the input's length and the bytes taken so far add up to more than LIMIT: then nothing changes.
pub fn feed(mut state: Cable, input: &[u8]) -> Step
    ensures { result ≡ feeding state input.now }
{
    let fed = state.take(input);
    Step { state, fed }
}

// Declares the end: 2 for the message that is open, else 1. Again, it changes nothing and gives 1.
pub fn end(mut state: Cable) -> Step
    ensures { result ≡ ending state }
{
    let fed = state.end();
    Step { state, fed }
}
