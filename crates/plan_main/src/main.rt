// Writes the shortest list of edits that turns one patch into another: the library makes what goes to the standard output and what to the
// standard error. `done` there says that the list is whole.
#![tactic(auto)]

use std::io;
use std::io::Write;
use text::input;

fn main(rt: HostRuntime) -> io::Result<()> {
    let mut all = [0u8; plan::INPUT];
    let n = input::read_full(&mut rt.stdin(), &mut all)?;
    let mut room = plan::room();
    let written = plan::answer(&all[..n], &mut room);
    let out = written.out;
    let end = written.end;
    rt.stdout().write_all(&room[..out])?;
    rt.stderr().write_all(&room[out..end])
}
