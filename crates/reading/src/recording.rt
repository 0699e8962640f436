// The walk with the bytes that come with an answer, and reading a record into a lent buffer.
ghost use Rattle.std.specs.Prelude.{◌≡◌, ◌^◌, ◌<◌};
ghost use Rattle.answers.specs.Effect.{Gives};
ghost use Rattle.judging.specs.code.Heard.{told_heard};
ghost use Rattle.reading.specs.code.Told.{end_from, reading_from, none_read, walked_with, reads};

use crate::walking::{Report, no_message, report_of};
use judging::Heard;

// A report, and the bytes that come with its answer: the number of a patch or a split, or those of an edit or an operation, as received; zero
// where the message has none and with every answer but 0.
#[repr(C)]
#[derive(Clone, Copy, Debug, PartialEq, Eq)]
pub struct Reading {
    pub report: Report,
    pub bytes: [u8; 4],
}

// The reading of a message from what was heard of it, its F0H at `start`. The callers have seen that its end is a place.
fn reading_of(start: usize, heard: Heard) -> Reading
    requires { end_from start heard.span < 2 ^ 64 }
    ensures { result ≡ reading_from start (told_heard heard) }
{
    Reading {
        report: report_of(start, heard),
        bytes: judging::bytes_of(heard.judged),
    }
}

// No message, and so no bytes.
fn no_reading(length: usize) -> Reading
    ensures { result ≡ none_read length }
{
    Reading {
        report: no_message(length),
        bytes: [0; 4],
    }
}

// The walk with the bytes that come with the answer.
pub fn walk_with_bytes(s: &[u8], place: usize) -> Reading
    ensures { result ≡ walked_with s.now place }
{
    let start = frames::find_start_from(s, place);
    if s.len() <= start {
        return no_reading(s.len());
    }
    reading_of(start, judging::judge_from(&s[start + 1..]))
}

// Reading a record: as the walk, then 13. A dump's packed bytes stand at the buffer's start; every other byte of it is kept,
// and all of them when refused.
pub fn read(s: &[u8], place: usize, buffer: &mut [u8]) -> Reading
    ensures { Gives (reads s.now place buffer.old) result buffer.new }
{
    let start = frames::find_start_from(s, place);
    if s.len() <= start {
        return no_reading(s.len());
    }
    reading_of(start, judging::record_from(&s[start + 1..], buffer))
}
