// Prints the listing of standard input: each piece as the library makes it, until nothing is left or a piece cannot be written.
// A byte more than the listing takes is read, so that a longer input is told.
#![tactic(auto)]

ghost use Rattle.std.specs.Prelude.{◌≤◌, length, OnOk};
ghost use Rattle.std.specs.Io.KnownBytes.{Appends};
ghost use Rattle.listing.specs.Listing.{listing_of};
ghost use Rattle.listing.specs.code.Pieces.{least_room};

use listing::Left;
use std::io;
use std::io::Write;
use text::input;

// The listing of `s`, by way of a lent room.
fn print<W: Write>(s: &[u8], room: &mut [u8], out: &mut W) -> io::Result<()>
    requires { least_room ≤ length room.old }
    ensures { OnOk result (Appends (W.contents out.old) (W.contents out.new) (listing_of s.now)) }
{
    let mut left = Left::Whole;
    // Nothing is counted: it goes on with what is left.
    while left != Left::Nothing {
        let piece = listing::next_piece(s, left, room);
        out.write_all(&room[..piece.len])?;
        left = piece.left;
    }
    Ok(())
}

fn main(rt: HostRuntime) -> io::Result<()> {
    let mut all = [0u8; listing::MOST + 1];
    let n = input::read_full(&mut rt.stdin(), &mut all)?;
    let mut room = [0u8; 4096];
    print(&all[..n], &mut room, &mut rt.stdout())
}
