// Finding system exclusive messages in a stream of bytes: where one starts, how far it runs, its bytes past real time.
#![tactic(auto)]

ghost use Rattle.std.specs.Prelude.{◌≡◌, ◌≤◌, true, length, take, not, if◌then◌else◌, nat_eq, nat_lt};
ghost use Rattle.std.specs.List.{All, prefix_len};
ghost use Rattle.streams.specs.Bytes.{real_time_in};
ghost use Rattle.frames.specs.code.Extent.{ahead, start_at, span_of, past_real_time};
ghost use Rattle.frames.specs.code.Blocks.{Goes, Onward};

// System exclusive, and end of exclusive: real time lies above it.
pub const START: u8 = 0xF0;

pub const END: u8 = 0xF7;

// How a message ends: with an F7H, before another byte in 80H..F7H, or with the input.
#[derive(Clone, Copy, Debug, PartialEq, Eq)]
pub enum Ending {
    Whole,
    Interrupted,
    Cut,
}

// What stands behind an F0H: how many bytes before the first in 80H..F7H, how many of them are real time, and how the message ends.
#[derive(Clone, Copy, Debug, PartialEq, Eq)]
pub struct Span {
    pub length: usize,
    pub noise: usize,
    pub ending: Ending,
}

// How a byte in 80H..F7H ends the message before it.
fn ended_by(b: u8) -> Ending
    ensures { result ≡ (if nat_eq b 0xF7 then Ending.Whole else Ending.Interrupted) }
{
    if b == END {
        Ending::Whole
    } else {
        Ending::Interrupted
    }
}

// Whether each byte of a block passes: without a branch, so that they are seen at once, where `all` would stop at the first that does not.
// By `|`, whether one fails, data bytes are tested in twice the time.
fn all_pass<F: Fn(u8) -> bool>(block: &[u8], passes: F) -> bool
    requires { F.IsAlwaysCallable passes }
    ensures { result ≡ true → All (λ b. F.post passes b true) block.now }
{
    block.iter().fold(true, |all, b| all & passes(*b))
}

// How far blocks of 16 bytes that pass reach from the start.
fn skip<F: Fn(u8) -> bool>(bytes: &[u8], passes: F) -> usize
    requires { F.IsAlwaysCallable passes }
    ensures within { result ≤ length bytes.now }
    ensures passed { All (λ b. F.post passes b true) (take result bytes.now) }
{
    let (blocks, _) = bytes.as_chunks::<16>();
    for (i, block) in blocks.iter().enumerate() {
        if !all_pass(block, &passes) {
            return 16 * i;
        }
    }
    16 * blocks.len()
}

// How many bytes stand before the first F0H, byte by byte.
fn count_ahead(rest: &[u8]) -> usize
    ensures { result ≡ prefix_len (λ b. not (nat_eq b 0xF0)) rest.now }
{
    rest.iter().take_while(|b| **b != START).count()
}

// How many bytes stand before the first F0H; all of them where there is none. Messages mostly follow each other, and then no block has to
// be looked at.
pub fn find_start(rest: &[u8]) -> usize
    ensures { result ≡ ahead rest.now }
{
    if rest.first() == Some(&START) {
        return 0;
    }
    let passed = skip(rest, |b| b != START);
    passed + count_ahead(&rest[passed..])
}

// Where the first F0H at a place or later stands; no place of the input where there is none.
pub fn find_start_from(s: &[u8], place: usize) -> usize
    ensures { result ≡ start_at s.now place }
{
    if s.len() <= place {
        return place;
    }
    place + find_start(&s[place..])
}

// Whether a message goes on over a byte.
fn goes_on(b: u8) -> bool
    ensures { result ≡ true → Goes b }
{
    (b < 0x80) | (END < b)
}

// How many bytes of a block that goes on are real time: those from 80H on, and a quotient counts them at once.
fn noise_in(block: &[u8; 32]) -> u8
    ensures { All Goes block.now → result ≡ real_time_in block.now }
{
    let mut n: u8 = 0;
    for b in block {
        n += b / 128;
    }
    n
}

// Bytes that were passed over, and how many of them are real time.
#[derive(Clone, Copy)]
struct Passed {
    length: usize,
    noise: usize,
}

// How far blocks of 32 bytes without an end reach behind the data bytes, and the real time in them. Most messages end where their data bytes
// end, and then no block has to be looked at.
fn skip_noisy(rest: &[u8]) -> Passed
    ensures { Onward rest.now result.length result.noise }
{
    let mut noise: usize = 0;
    if !rest.first().is_some_and(|b| goes_on(*b)) {
        return Passed { length: 0, noise };
    }
    let (blocks, _) = rest.as_chunks::<32>();
    for (i, block) in blocks.iter().enumerate() {
        if !all_pass(block, goes_on) {
            return Passed {
                length: 32 * i,
                noise,
            };
        }
        noise += usize::from(noise_in(block));
    }
    Passed {
        length: 32 * blocks.len(),
        noise,
    }
}

// How far a message runs, from the bytes behind its F0H. The last bytes are read by their place: by `iter` over what is left of the slice,
// messages of one byte take a tenth longer.
pub fn find_end(rest: &[u8]) -> Span
    ensures { result ≡ span_of rest.now }
{
    let quiet = skip(rest, |b| b < 0x80);
    let passed = skip_noisy(&rest[quiet..]);
    let mut noise = passed.noise;
    for i in quiet + passed.length..rest.len() {
        match rest[i] {
            0x00..=0x7F => {}
            0xF8..=0xFF => noise += 1,
            b => {
                return Span {
                    length: i,
                    noise,
                    ending: ended_by(b),
                };
            }
        }
    }
    Span {
        length: rest.len(),
        noise,
        ending: Ending::Cut,
    }
}

// Where the first byte at a place or later stands that is not real time; no place of the bytes where there is none. By their places: by `iter`
// over what is left of them, dumps with Active Sensing took up to a fifth longer.
pub fn past_real_time(bytes: &[u8], place: usize) -> usize
    ensures { result ≡ past_real_time bytes.now place }
{
    if bytes.len() <= place {
        return place;
    }
    for i in place..bytes.len() {
        if bytes[i] <= END {
            return i;
        }
    }
    bytes.len()
}
