// A message's content, where it stands: what is between F0H and F7H, less the real time in it. It is not copied: real time is passed over
// as its bytes are asked for, and a dump is packed from there.
ghost use Rattle.std.specs.Prelude.{◌≡◌, true, ◌+◌, ◌*◌, ◌<◌, length, slice_get};
ghost use Rattle.answers.specs.Refusals.{told_test};
ghost use Rattle.streams.specs.Bytes.{without_real_time, real_time_in};
ghost use Rattle.judging.specs.code.Content.{content_by, sent_in, FrontQuiet, StandsAt, LastAt, PacksTo, Gathers};

use answers::Refusal;
use frames::END;

// A dump's number stands behind maker, device and opcode, its data behind the number.
pub(crate) const NUMBER: usize = 3;

pub(crate) const FRONT: usize = NUMBER + 1;

// `true` only where no real time stands among the first four bytes, as mostly none does.
fn front_quiet(body: &[u8]) -> bool
    ensures { result ≡ true → FrontQuiet body.now }
{
    if body.len() < FRONT {
        return false;
    }
    body[0] | body[1] | body[2] | body[3] < 0x80
}

// Where a byte of what is left of a body without its real time stands in it. The callers below have seen that there is one.
fn place_of(body: &[u8], i: usize) -> usize
    requires { i < length (without_real_time body.now) }
    ensures { StandsAt body.now i result }
{
    if i < FRONT {
        if front_quiet(body) {
            return i;
        }
    }
    let mut at = frames::past_real_time(body, 0);
    for _ in 0..i {
        at = frames::past_real_time(body, at + 1);
    }
    at
}

// Where its last byte stands, found from the end, by its place. The caller below has seen that there is one.
fn last_place(body: &[u8]) -> usize
    requires { 0 < length (without_real_time body.now) }
    ensures { LastAt body.now result }
{
    let mut last = body.len() - 1;
    while END < body[last] {
        last -= 1;
    }
    last
}

// A dump's data, packed from among real time: the first byte above 15, or the packed bytes. The caller below has seen that a byte stands
// behind them.
fn gather(body: &[u8], packed: &mut [u8]) -> Option<usize>
    requires { 4 + 2 * length packed.old < length (without_real_time body.now) }
    ensures { PacksTo (sent_in (length packed.old) (without_real_time body.now)) packed.new result }
{
    let mut at = place_of(body, NUMBER) + 1;
    let mut k: usize = 0;
    // Neither the place nor the count of what is packed grows by one in each turn.
    while k < packed.len() {
        let low = body[at];
        let high = body[at + 1];
        if low | high < 16 {
            // Mostly both stand together.
            packed[k] = low + 16 * high;
            at += 2;
            k += 1;
        } else if END < low {
            at += 1;
        } else {
            if 15 < low {
                return Some(2 * k);
            }
            let next = frames::past_real_time(body, at + 1);
            let second = body[next];
            if 15 < second {
                return Some(2 * k + 1);
            }
            packed[k] = low + 16 * second;
            at = next + 1;
            k += 1;
        }
    }
    None
}

// Data bytes, packed into a room that fits them: 9 with the first one above 15, or the packed bytes. Its callers have seen that they fit.
pub(crate) fn pack_sent(sent: &[u8], packed: &mut [u8]) -> Result<(), Refusal>
    requires { length sent.now ≡ 2 * length packed.old }
    ensures { Gathers sent.now packed.new (told_test result) }
{
    nibbles::pack_into(sent, packed)?;
    Ok(())
}

// A content: the body in which it stands, and how many bytes it has.
#[derive(Clone, Copy)]
pub(crate) struct Content<'a> {
    pub(crate) body: &'a [u8],
    count: usize,
    ghost counted: { count ≡ length (content_by count body.now) },
}

impl<'a> Content<'a> {
    // That of a body in which the callers have counted so many bytes of real time.
    pub(crate) fn of(body: &'a [u8], noise: usize) -> Content<'a>
        requires { noise ≡ real_time_in body.now }
        ensures { content_by result.count result.body.now ≡ without_real_time body.entry.now }
    {
        let count = body.len() - noise;
        Content { body, count }
    }

    // One that was kept, without real time.
    pub(crate) fn kept(body: &'a [u8]) -> Content<'a>
        ensures { content_by result.count result.body.now ≡ body.entry.now }
    {
        let count = body.len();
        Content { body, count }
    }

    // How many bytes it has.
    pub(crate) fn len(self) -> usize
        ensures { result ≡ length (content_by self.entry.count self.entry.body.now) }
    {
        self.count
    }

    // No real time stands among it.
    pub(crate) fn is_whole(self) -> bool
        ensures { result ≡ true → content_by self.entry.count self.entry.body.now ≡ self.entry.body.now }
    {
        self.count == self.body.len()
    }

    // A byte of it, none behind the last.
    pub(crate) fn get(self, i: usize) -> Option<u8>
        ensures { result ≡ slice_get (content_by self.entry.count self.entry.body.now) i }
    {
        if self.count <= i {
            return None;
        }
        if self.count == self.body.len() {
            return Some(self.body[i]);
        }
        if i + 1 == self.count {
            return Some(self.body[last_place(self.body)]);
        }
        Some(self.body[place_of(self.body, i)])
    }

    // A dump's data, packed: 9 with the first byte above 15, or the packed bytes. The callers have seen that it has a byte behind them.
    pub(crate) fn pack(self, packed: &mut [u8]) -> Result<(), Refusal>
        requires { 4 + 2 * length packed.old < length (content_by self.count self.body.now) }
        ensures { Gathers (sent_in (length packed.old) (content_by self.entry.count self.entry.body.now)) packed.new (told_test result) }
    {
        if self.count != self.body.len() {
            return match gather(self.body, packed) {
                Some(index) => Err(Refusal::WideData(index)),
                None => Ok(()),
            };
        }
        let end = FRONT + 2 * packed.len();
        pack_sent(&self.body[FRONT..end], packed)
    }
}
