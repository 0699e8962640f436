// The reports of a stream, by two states, a form that was asked for: outside a message and inside one, that hand the rest of the input to
// each other.
ghost use Rattle.std.specs.Prelude.{◌≡◌, ◌++◌, ◌+◌, ◌^◌, ◌<◌, ◌≤◌, length, drop};
ghost use Rattle.streams.specs.code.Scan.{outside, scan};
ghost use Rattle.messages.specs.Judge.{judge};
ghost use Rattle.reading.specs.code.Told.{numbers_told};
ghost use Rattle.reading.specs.code.Rooms.{width, fitting, reports_inside, made, Holds, Makes};

use crate::walking::{Report, report_of};

// How many reports were made, and the place from which to go on.
#[repr(C)]
#[derive(Clone, Copy, Debug, PartialEq, Eq)]
pub struct Listed {
    pub count: usize,
    pub next: usize,
}

// How many numbers a report has. C lends a room of numbers, so reports lie flat in it.
pub const WIDTH: usize = 6;

// Where the value stands among them, and the noise behind it.
pub const VALUE: usize = 4;

pub const NOISE: usize = 5;

// One call makes at most so many reports, which bounds how many calls of the two states are under way.
pub const MOST: usize = 8;

// The room for them.
const ROOM: usize = MOST * WIDTH;

// A report's numbers at the start of the room. Its caller has seen that they fit. Each by itself: copied as an array they go to the stack first.
fn put_report(r: Report, room: &mut [usize])
    requires { width ≤ length room.old }
    ensures { room.new ≡ numbers_told r ++ drop width room.old }
{
    let [start, end, answer, detail, value, noise] = r.numbers();
    room[0] = start;
    room[1] = end;
    room[2] = answer;
    room[3] = detail;
    room[VALUE] = value;
    room[NOISE] = noise;
}

// Outside a message: on to the next F0H, if there is room for one more report.
#[cycle(list_inside_list_outside)]
fn list_outside(rest: &[u8], place: usize, room: &mut [usize]) -> usize
    requires { place + length rest.now < 2 ^ 64 }
    ensures { Holds (fitting room.old (scan judge place outside rest.now)) room.old room.new result }
{
    if room.len() < WIDTH {
        return 0;
    }
    let i = frames::find_start(rest);
    if rest.len() <= i {
        return 0;
    }
    list_inside(&rest[i + 1..], place + i, room)
}

// Inside the message whose F0H stands at `start`: its report, then on behind the byte that ended it, which may be an F0H.
#[cycle(list_inside_list_outside)]
fn list_inside(rest: &[u8], start: usize, room: &mut [usize]) -> usize
    requires { start + 1 + length rest.now < 2 ^ 64 }
    ensures { Holds (fitting room.old (reports_inside start rest.now)) room.old room.new result }
{
    if room.len() < WIDTH {
        return 0;
    }
    let heard = judging::judge_from(rest);
    let n = heard.span.length;
    put_report(report_of(start, heard), room);
    if rest.len() <= n {
        return 1;
    }
    let place = start + 1 + n;
    if rest[n] == frames::START {
        return 1 + list_inside(&rest[n + 1..], place, &mut room[WIDTH..]);
    }
    1 + list_outside(&rest[n + 1..], place + 1, &mut room[WIDTH..])
}

// The reports from a place of the input on, as many as fit, at most 8. The caller below has seen that the place is one of the input.
fn list_some(s: &[u8], place: usize, room: &mut [usize]) -> usize
    requires { place ≤ length s.now }
    ensures { Holds (made s.now place room.old) room.old room.new result }
{
    if ROOM < room.len() {
        return list_outside(&s[place..], place, &mut room[..ROOM]);
    }
    list_outside(&s[place..], place, room)
}

// The reports from a place on, their numbers one after the other at the start of the lent room: as many as fit, at most MOST a call.
pub fn reports(s: &[u8], place: usize, room: &mut [usize]) -> Listed
    ensures { Makes s.now place room.old room.new result }
{
    if s.len() < place {
        return Listed {
            count: 0,
            next: place,
        };
    }
    let count = list_some(s, place, room);
    if count == 0 {
        return Listed {
            count: 0,
            next: place,
        };
    }
    let last = WIDTH * count - (WIDTH - 1);
    Listed {
        count,
        next: room[last],
    }
}
