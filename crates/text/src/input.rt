// Input put into lent room. No buffer stands in between, so that no more is read than there is room for. std's `read_exact` refuses an input that
// ends early, and its `read_to_end` wants the heap.
ghost use Rattle.std.specs.Prelude.{ℕ, ◌<◌, ◌≤◌, length, take, IfOk, OnErr};
ghost use Rattle.std.specs.Io.KnownBytes.{Consumes, IsAtEnd};
ghost use Rattle.text.specs.Text.{IsPrefixLen};

use std::io;
use std::io::Read;

// Reads until the room is full or the input ends; answers how many bytes stand at the room's start. Where a read fails, what was taken before
// stands there.
pub fn read_full<R: Read>(input: &mut R, room: &mut [u8]) -> io::Result<usize>
    ensures prefix_len { IfOk result (λ n. IsPrefixLen n room.new) }
    ensures bytes { IfOk result (λ n. Consumes (R.remaining input.old) (R.remaining input.new) (take n room.new)) }
    ensures ends { IfOk result (λ n. n < length room.new → IsAtEnd (R.remaining input.new)) }
    ensures none_lost { OnErr result ((n : ℕ) × (n ≤ length room.new) × Consumes (R.remaining input.old) (R.remaining input.new) (take n room.new)) }
{
    let mut end: usize = 0;
    while end < room.len() {
        let n = input.read(&mut room[end..])?;
        if n == 0 {
            return Ok(end);
        }
        end += n;
    }
    Ok(end)
}
