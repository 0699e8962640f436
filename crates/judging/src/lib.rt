// What a message comes to.
#![tactic(auto)]

pub mod content;
pub mod dumps;
pub mod shorts;

ghost use Rattle.std.specs.Prelude.{◌≡◌};
ghost use Rattle.answers.specs.Effect.{Gives};
ghost use Rattle.streams.specs.Bytes.{framed};
ghost use Rattle.frames.specs.code.Extent.{span_of};
ghost use Rattle.messages.specs.Kinds.{kind_of};
ghost use Rattle.messages.specs.Judge.{judge};
ghost use Rattle.judging.specs.code.Counted.{content_of};
ghost use Rattle.judging.specs.code.Judged.{kind_verdict, judged, told_judged, recorded_as};
ghost use Rattle.judging.specs.code.Heard.{verdict_from, told_heard, heard_from, recorded_from};

use crate::content::Content;
use crate::dumps::judge_dump;
use crate::shorts::judge_short;
use answers::{Outcome, Refusal};
use frames::{Ending, Span};
use messages::kinds::{DEVICE, Kind, MAKER, kind_of};

// A message that is accepted: its opcode, and the bytes that come with it, the number of a patch or a split, or those of an edit or an operation;
// zero where there are none.
#[derive(Clone, Copy, Debug, PartialEq, Eq)]
pub struct Accepted {
    pub opcode: u8,
    pub bytes: [u8; 4],
}

// How far a message runs, and what it comes to.
#[derive(Clone, Copy, Debug, PartialEq, Eq)]
pub struct Heard {
    pub span: Span,
    pub judged: Result<Accepted, Refusal>,
}

// The outcome of what a message comes to: accepted, its detail is the opcode. No `From`: neither `Result` nor `Outcome` is of this crate.
pub fn outcome_of(judged: Result<Accepted, Refusal>) -> Outcome
    ensures { result ≡ (told_judged judged).outcome }
{
    match judged {
        Ok(accepted) => answers::done(usize::from(accepted.opcode)),
        Err(refusal) => refusal.into(),
    }
}

// The bytes that come with it: zeros where it is refused.
pub fn bytes_of(judged: Result<Accepted, Refusal>) -> [u8; 4]
    ensures { result ≡ (told_judged judged).bytes }
{
    match judged {
        Ok(accepted) => accepted.bytes,
        Err(_) => [0; 4],
    }
}

// The kind by its opcode, 6 for any other.
fn judge_kind(opcode: u8, content: Content) -> Result<Accepted, Refusal>
    ensures { told_judged result ≡ judged (kind_verdict (kind_of opcode) (framed (content_of content.entry))) }
{
    let kind = kind_of(opcode);
    match kind {
        Kind::Dump(dump) => judge_dump(dump, content),
        Kind::Short(short) => judge_short(short, content),
        Kind::Unknown => Err(Refusal::OtherOpcode),
    }
}

// What a complete message comes to, by document 01's table from 4 on.
fn judge_content(content: Content) -> Result<Accepted, Refusal>
    ensures { told_judged result ≡ judged (judge (framed (content_of content.entry))) }
{
    if content.get(0) != Some(MAKER) {
        return Err(Refusal::OtherMaker);
    }
    if content.get(1) != Some(DEVICE) {
        return Err(Refusal::OtherDevice);
    }
    let opcode = content.get(2).ok_or(Refusal::OtherOpcode)?;
    judge_kind(opcode, content)
}

// The same with its packed bytes at the start of a lent buffer: as judged, then 13. Refused, the buffer keeps every byte.
fn record_content(content: Content, buffer: &mut [u8]) -> Result<Accepted, Refusal>
    ensures { Gives (recorded_as (judge (framed (content_of content.entry))) buffer.old) (told_judged result) buffer.new }
{
    let accepted = judge_content(content)?;
    let size = kind_of(accepted.opcode).packed_size();
    if buffer.len() < size {
        return Err(Refusal::NoRoom);
    }
    if 0 < size {
        content.pack(&mut buffer[..size])?;
    }
    Ok(accepted)
}

// The same from a content that was kept: what stood between F0H and F7H, no real time among it.
pub fn record_kept(kept: &[u8], buffer: &mut [u8]) -> Result<Accepted, Refusal>
    ensures { Gives (recorded_as (judge (framed kept.now)) buffer.old) (told_judged result) buffer.new }
{
    record_content(Content::kept(kept), buffer)
}

// What a message comes to by how it ends: the bytes behind its F0H, of which the caller below has the span.
fn judge_span(span: Span, rest: &[u8]) -> Result<Accepted, Refusal>
    requires { span ≡ span_of rest.now }
    ensures { told_judged result ≡ judged (verdict_from rest.now) }
{
    match span.ending {
        Ending::Whole => judge_content(Content::of(&rest[..span.length], span.noise)),
        Ending::Interrupted => Err(Refusal::Interrupted),
        Ending::Cut => Err(Refusal::Cut),
    }
}

// The same with its packed bytes. Judging by way of this costs the reports stack and time (DECISIONS, 'A record is judged, then packed').
fn record_span(span: Span, rest: &[u8], buffer: &mut [u8]) -> Result<Accepted, Refusal>
    requires { span ≡ span_of rest.now }
    ensures { Gives (recorded_as (verdict_from rest.now) buffer.old) (told_judged result) buffer.new }
{
    match span.ending {
        Ending::Whole => record_content(Content::of(&rest[..span.length], span.noise), buffer),
        Ending::Interrupted => Err(Refusal::Interrupted),
        Ending::Cut => Err(Refusal::Cut),
    }
}

// The message whose F0H stands just before `rest`: how far it runs, and what it comes to, by document 01's table from 2 on.
pub fn judge_from(rest: &[u8]) -> Heard
    ensures { told_heard result ≡ heard_from rest.now }
{
    let span = frames::find_end(rest);
    Heard {
        span,
        judged: judge_span(span, rest),
    }
}

// The same with its packed bytes at the start of a lent buffer: as judged, then 13. Refused, the buffer keeps every byte.
pub fn record_from(rest: &[u8], buffer: &mut [u8]) -> Heard
    ensures { Gives (recorded_from rest.now buffer.old) (told_heard result) buffer.new }
{
    let span = frames::find_end(rest);
    Heard {
        span,
        judged: record_span(span, rest, buffer),
    }
}
