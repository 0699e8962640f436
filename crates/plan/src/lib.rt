// What the program `plan` writes: for the standard output the shortest list of edits that turns the returned patch into the lent one, as bytes
// or as lines, and for the standard error `done`; or nothing and why there is no list.
#![tactic(auto)]

ghost use Rattle.std.specs.Prelude.{◌≡◌, ◌<◌, get_or, replicate};
ghost use Rattle.answers.specs.Effect.{tested};
ghost use Rattle.streams.specs.Stream.{between};
ghost use Rattle.fields.specs.Fields.{value_at};
ghost use Rattle.patch.specs.Patch.{source_at};
ghost use Rattle.text.specs.Text.{signed, Gains};
ghost use Rattle.pairs.specs.Pairs.{pair_rows};
ghost use Rattle.edit_lists.specs.Lists.{list_bytes};
ghost use Rattle.edit_lists.specs.Plan.{plan};
ghost use Rattle.plan.specs.Files.{is_patch_dump, only_real_time, patch_in, sentence};
ghost use Rattle.plan.specs.Said.{parameter_line, bus_values, bus_line, change_line, change_lines, proposing, by_files, three_bytes, said_of};
ghost use Rattle.plan.specs.code.Written.{room_most, finding, PutsBoth, Says};

use answers::Outcome;
use fields::{BytePlace, SOURCE_AT};
use frames::END;
use listing::MOST;
use messages::kinds::{EditBuffer, PATCH, SinglePatch};
use planner::parts::{Differing, Part};
use reading::walking::Report;
use text::Text;

// A byte that says what is wanted, and the length of the first file in three, low byte first.
const HEAD: usize = 4;

// As much as the program reads: that, and of either file a byte more than programs take, so that a longer one is told.
pub const INPUT: usize = HEAD + 2 * (MOST + 1);

// All that can be said fits into so many bytes.
const ROOM: usize = 11264;

// A list of all 96 parameters and ten buses.
const LONGEST: usize = 762;

const WANTS_LINES: u8 = 1;

// What a file comes to that is not one accepted patch dump.
#[derive(Clone, Copy)]
pub enum Wrong {
    TooLong,
    NoPatch,
    NotOne(Report),
    Outside,
}

// What stands in a room: up to `out` what goes to the standard output, from there to `end` what goes to the standard error. Places and no
// slices: the contract tells the whole room, which the program writes from.
#[derive(Clone, Copy)]
pub struct Written {
    pub out: usize,
    pub end: usize,
}

// An accepted patch dump, numbered or for the edit buffer: by its outcome, as the definition has it.
fn is_patch_dump(outcome: Outcome) -> bool
    ensures { result ≡ is_patch_dump outcome }
{
    let opcode = outcome.detail;
    outcome.is_done()
        && (opcode == SinglePatch::OPCODE as usize || opcode == EditBuffer::OPCODE as usize)
}

// Nothing but real time stands from one place up to another.
fn only_real_time(s: &[u8], from: usize, to: usize) -> bool
    ensures { result ≡ only_real_time (between s.now from to) }
{
    s.iter().take(to).skip(from).all(|b| END < *b)
}

// The patch of a file that is one accepted patch dump, or what else it comes to.
fn find_patch(s: &[u8]) -> Result<[u8; PATCH], Wrong>
    ensures { result ≡ finding s.now }
{
    if MOST < s.len() {
        return Err(Wrong::TooLong);
    }
    let first = reading::walking::walk(s, 0);
    if !first.is_found() {
        return Err(Wrong::NoPatch);
    }
    if !is_patch_dump(first.outcome) {
        return Err(Wrong::NotOne(first));
    }
    let next = reading::walking::walk(s, first.end);
    if next.is_found() {
        return Err(Wrong::NotOne(next));
    }
    if !only_real_time(s, 0, first.start) || !only_real_time(s, first.end, s.len()) {
        return Err(Wrong::Outside);
    }
    Ok(patch_in(s))
}

// The patch of a file's first dump.
fn patch_in(s: &[u8]) -> [u8; PATCH]
    ensures { result ≡ patch_in s.now }
{
    let mut p = [0u8; PATCH];
    reading::recording::read(s, 0, &mut p);
    p
}

// What else was found in a file, as a line.
fn put_wrong(text: &mut Text, wrong: Wrong)
    ensures { Gains (sentence wrong) text.old text.new }
{
    match wrong {
        Wrong::TooLong => listing::put_too_long(text),
        Wrong::NoPatch => text.put(b"no patch dump\n"),
        Wrong::NotOne(report) => {
            text.put(b"not one accepted patch dump: ");
            listing::put_report(text, report);
        }
        Wrong::Outside => text.put(b"bytes outside the patch dump\n"),
    }
}

// The value of a byte at a place, with its sign, and the byte behind it: one line, as in `table_main`.
fn put_value(text: &mut Text, place: BytePlace, b: u8, behind: u8)
    ensures { Gains (signed (value_at place.0 b) behind) text.old text.new }
{
    text.put_signed(isize::from(fields::value_at(place, b)), behind);
}

// The line of a parameter: byte place, parameter, its value before and after. `put_change` has seen that the part is one.
fn put_parameter(text: &mut Text, a: &[u8; PATCH], b: &[u8; PATCH], part: Part)
    requires { part.place < source_at 0 }
    ensures { Gains (parameter_line a.now b.now part.place) text.old text.new }
{
    let k = part.place;
    let place = BytePlace(k as u8);
    let Some(parameter) = fields::parameter_of(place) else {
        return;
    };
    text.put_number(k, b' ');
    text.put(b"parameter ");
    text.put_number(parameter.0 as usize, b' ');
    put_value(text, place, a[k], b' ');
    put_value(text, place, b[k], b'\n');
}

// Source, amount and destination of a bus, and the byte behind them.
fn put_values(text: &mut Text, p: &[u8; PATCH], bus: usize, behind: u8)
    requires { bus < 10 }
    ensures { Gains (bus_values p.now bus behind) text.old text.new }
{
    let k = SOURCE_AT + 3 * bus;
    put_value(text, BytePlace(k as u8), p[k], b' ');
    put_value(text, BytePlace(k as u8 + 1), p[k + 1], b' ');
    put_value(text, BytePlace(k as u8 + 2), p[k + 2], behind);
}

// The line of a bus: byte place, bus, its values before and after.
fn put_bus(text: &mut Text, a: &[u8; PATCH], b: &[u8; PATCH], bus: usize)
    requires { bus < 10 }
    ensures { Gains (bus_line a.now b.now bus) text.old text.new }
{
    text.put_number(SOURCE_AT + 3 * bus, b' ');
    text.put(b"bus ");
    text.put_number(bus, b' ');
    put_values(text, a, bus, b' ');
    put_values(text, b, bus, b'\n');
}

// The line of the edit for a part.
fn put_change(text: &mut Text, a: &[u8; PATCH], b: &[u8; PATCH], part: Part)
    ensures { Gains (change_line a.now b.now part.place) text.old text.new }
{
    if part.place < SOURCE_AT {
        put_parameter(text, a, b, part);
    } else {
        put_bus(text, a, b, (part.place - SOURCE_AT) / 3);
    }
}

// A line for each edit. The patches go by themselves: the definitions take them so, and a struct of both would be taken apart in each call.
fn put_changes(text: &mut Text, a: &[u8; PATCH], b: &[u8; PATCH])
    ensures { Gains (change_lines a.now b.now) text.old text.new }
{
    for part in Differing::of(a, b) {
        put_change(text, a, b, part);
    }
}

// The list as bytes. Its caller has tested both patches.
fn put_list(text: &mut Text, a: &[u8; PATCH], b: &[u8; PATCH])
    requires { (tested (pair_rows a.now b.now)).answer ≡ 0 }
    ensures { Gains (list_bytes (plan a.now b.now)) text.old text.new }
{
    let mut list = [0u8; LONGEST];
    if let Ok(size) = planner::plan(a, b, &mut list) {
        text.put(&list[..size]);
    }
}

// The list that turns a into b, as lines or as bytes, or that their names differ; answers where the standard output's part ends. `lines` is
// the flag of the definition.
fn put_proposal(text: &mut Text, lines: bool, a: &[u8; PATCH], b: &[u8; PATCH]) -> usize
    ensures { PutsBoth (proposing lines a.now b.now) text.old text.new result }
{
    let start = text.end();
    if pairs::test_pair(a, b).is_err() {
        text.put(b"names differ: no edit reaches a name\n");
        return start;
    }
    if lines {
        put_changes(text, a, b);
    } else {
        put_list(text, a, b);
    }
    let out = text.end();
    text.put(b"done\n");
    out
}

// What is written for two files, the returned patch's first; answers where the standard output's part ends.
fn answer_files(text: &mut Text, lines: bool, returned: &[u8], lent: &[u8]) -> usize
    ensures { PutsBoth (by_files lines returned.now lent.now) text.old text.new result }
{
    let start = text.end();
    // The lent patch's file is not looked at where the returned one is wrong.
    match find_patch(returned) {
        Err(wrong) => {
            text.put(b"returned: ");
            put_wrong(text, wrong);
            start
        }
        Ok(a) => match find_patch(lent) {
            Err(wrong) => {
                text.put(b"lent: ");
                put_wrong(text, wrong);
                start
            }
            Ok(b) => put_proposal(text, lines, &a, &b),
        },
    }
}

// A number of three bytes, low byte first.
fn number_of(low: u8, middle: u8, high: u8) -> usize
    ensures { (result ≡ three_bytes low middle high) × (result < 16777216) }
{
    u32::from_le_bytes([low, middle, high, 0]) as usize
}

// A byte of the input, 0 past its end.
fn byte_at(input: &[u8], i: usize) -> u8
    ensures { result ≡ get_or input.now i 0 }
{
    input.get(i).copied().unwrap_or(0)
}

// A room that takes all that can be said.
pub fn room() -> [u8; ROOM]
    ensures { result ≡ replicate room_most 0 }
{
    [0; ROOM]
}

// What the program writes for its input: as much as fits into the room; all of it, where it is as long as `room` makes it.
pub fn answer(input: &[u8], room: &mut [u8]) -> Written
    ensures { Says (said_of input.now) room.old room.new result }
{
    let lines = byte_at(input, 0) == WANTS_LINES;
    let size = number_of(byte_at(input, 1), byte_at(input, 2), byte_at(input, 3));
    let from = HEAD.min(input.len());
    let to = (HEAD + size).min(input.len());
    let mut text = Text::new(room, 0);
    let out = answer_files(&mut text, lines, &input[from..to], &input[to..]);
    Written {
        out,
        end: text.end(),
    }
}
