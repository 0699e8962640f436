// The room of a reader's record: bytes put into it as far as they fit.
ghost use Rattle.std.specs.Prelude.{◌≡◌, ◌++◌, take};
ghost use Rattle.streams.specs.Bytes.{without_real_time, real_time_in};
ghost use Rattle.cable.specs.code.Steps.{Kept};

use frames::END;

// Bytes at the start of a lent output, as many as fit, and how many these are.
fn put_all(bytes: &[u8], out: &mut [u8]) -> usize
    ensures { Kept bytes.now out.old out.new result }
{
    let n = bytes.len().min(out.len());
    out[..n].copy_from_slice(&bytes[..n]);
    n
}

// The same of those that are not real time. What is kept is counted, and not the turns.
fn put_quiet(bytes: &[u8], out: &mut [u8]) -> usize
    ensures { Kept (without_real_time bytes.now) out.old out.new result }
{
    let mut n: usize = 0;
    for b in bytes {
        if *b <= END {
            if out.len() <= n {
                return n;
            }
            out[n] = *b;
            n += 1;
        }
    }
    n
}

// More bytes behind the first ones of a room, real time dropped, as many as fit; and how many stand there then. The callers have counted
// the real time. The count goes beside the room: a struct of both was measured slower (DECISIONS, 'The record by value').
pub(crate) fn append(room: &mut [u8], count: usize, more: &[u8], noise: usize) -> usize
    requires { noise ≡ real_time_in more.now }
    ensures { Kept (take count room.old ++ without_real_time more.now) room.old room.new result }
{
    let count = count.min(room.len());
    if noise == 0 {
        return count + put_all(more, &mut room[count..]);
    }
    count + put_quiet(more, &mut room[count..])
}
