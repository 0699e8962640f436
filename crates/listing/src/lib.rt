// The listing of an input, made piece by piece into lent room: a header, a line for each message with its start, end, answer, detail,
// value and noise, and a line with how many messages there are; or `input too long` alone. Begin with `Left::Whole` and write each piece, until
// nothing is left.
#![tactic(auto)]

ghost use Rattle.std.specs.Prelude.{◌++◌};
ghost use Rattle.text.specs.Text.{followed, signed, spaced, Gains, IsPrefixLen};
ghost use Rattle.listing.specs.Listing.{line, total, too_long};
ghost use Rattle.listing.specs.code.Pieces.{GivesPiece};
ghost use Rattle.listing.specs.code.Steps.{Within, Adds};

use reading::listing::WIDTH;
use reading::walking::Report;
use text::Text;

// Programs take at most this many bytes.
pub const MOST: usize = 65536;

// A room of this many bytes or more takes the lines of 8 reports: 20 digits and the byte behind them for each number, and a sign.
pub const LEAST_ROOM: usize = reading::listing::MOST * (WIDTH * 21 + 1);

// What is left of a listing: the whole; what follows from a place on, behind the lines of so many messages; nothing.
#[derive(Clone, Copy, PartialEq, Eq)]
pub enum Left {
    Whole,
    From(usize, usize),
    Nothing,
}

// How long the piece at the room's start is, and what is left behind it. A length and no slice: the contract tells the whole room.
#[derive(Clone, Copy)]
pub struct Piece {
    pub len: usize,
    pub left: Left,
}

// That the input is too long, as a line.
pub fn put_too_long(text: &mut Text)
    ensures { Gains too_long text.old text.new }
{
    text.put(b"input too long\n");
}

// The first line: the header, or that the input is too long.
fn put_first(s: &[u8], text: &mut Text) -> Left
    ensures { Adds s.now Left.Whole text.old text.new result }
{
    if MOST < s.len() {
        put_too_long(text);
        return Left::Nothing;
    }
    text.put(b"start end answer detail value rt\n");
    Left::From(0, 0)
}

// The last line: how many messages there are.
fn put_total(text: &mut Text, messages: usize)
    ensures { Gains (total messages) text.old text.new }
{
    text.put(b"messages ");
    text.put_number(messages, b'\n');
}

// The line of a report's numbers: start, end, answer and detail, the value with its sign, and the noise.
pub fn put_line(text: &mut Text, numbers: [usize; 4], value: isize, noise: usize)
    ensures { Gains (spaced numbers ++ (signed value 0x20 ++ followed noise 0x0A)) text.old text.new }
{
    text.put_spaced(&numbers);
    text.put_signed(value, b' ');
    text.put_number(noise, b'\n');
}

// The line of a report as the walk tells it.
pub fn put_report(text: &mut Text, r: Report)
    ensures { Gains (line r.start r.end r.outcome r.noise) text.old text.new }
{
    let numbers = [r.start, r.end, r.outcome.answer as usize, r.outcome.detail];
    put_line(text, numbers, isize::from(r.outcome.value), r.noise);
}

// The line of the next message, or the last line where there is none: by its place, since the clause goes by what is left of the input.
fn put_next(s: &[u8], place: usize, messages: usize, text: &mut Text) -> Left
    requires { Within s.now place messages }
    ensures { Adds s.now (Left.From place messages) text.old text.new result }
{
    let report = reading::walking::walk(s, place);
    if s.len() <= report.start {
        put_total(text, messages);
        return Left::Nothing;
    }
    put_report(text, report);
    Left::From(report.end, messages + 1)
}

// One step: a first, a last or another line.
fn put_some(s: &[u8], left: Left, text: &mut Text) -> Left
    ensures { Adds s.now left text.old text.new result }
{
    match left {
        Left::Whole => put_first(s, text),
        Left::From(place, messages) if messages <= place && place <= s.len() => {
            put_next(s, place, messages, text)
        }
        _ => Left::Nothing,
    }
}

// The next piece of the listing of `s`, at the room's start: lines until fewer than LEAST_ROOM bytes are left. In a room of LEAST_ROOM bytes
// or more each call brings the listing further; a shorter one gets an empty piece.
pub fn next_piece(s: &[u8], left: Left, room: &mut [u8]) -> Piece
    ensures gives_piece { GivesPiece s.now left room.old room.new result }
    ensures prefix_len { IsPrefixLen result.len room.new }
{
    let mut text = Text::new(room, 0);
    let mut rest = left;
    // Nothing is counted: it goes on with what is left.
    while rest != Left::Nothing && LEAST_ROOM <= text.space() {
        rest = put_some(s, rest, &mut text);
    }
    Piece {
        len: text.end(),
        left: rest,
    }
}
