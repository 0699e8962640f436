// The parts of a patch, and those in which two patches differ.
ghost use Rattle.std.specs.Prelude.{◌≡◌};
ghost use Rattle.std.specs.Iterator.{YieldsFirstBy, item_count};
ghost use Rattle.edit_lists.specs.Plan.{width_of, same_at, parts, differing};
ghost use Rattle.edit_lists.specs.code.Left.{IsPart, Stands, length_at};

use fields::{NAME_SIZE, SOURCE_AT};
use messages::kinds::{BusEdit, PATCH, RemoteEdit};

// What one edit changes: the byte of a parameter, or the three bytes of a bus. It is named by its first byte place.
#[derive(Clone, Copy)]
pub struct Part {
    pub place: usize,
    ghost begins: { IsPart place },
}

// How many bytes the edit at a place changes: a parameter's one, or the three of a bus.
pub fn width_of(k: usize) -> usize
    ensures { result ≡ width_of k }
{
    if k < SOURCE_AT { 1 } else { 3 }
}

impl Part {
    // How many bytes it has.
    fn width(self) -> usize
        ensures { result ≡ width_of self.place }
    {
        width_of(self.place)
    }

    // How long the message of its edit is.
    pub fn message_length(self) -> usize
        ensures { result ≡ length_at self.place }
    {
        if self.place < SOURCE_AT {
            RemoteEdit::LENGTH
        } else {
            BusEdit::LENGTH
        }
    }

    // Two patches have the same bytes there. Each by itself: as slices the three bytes of a bus are compared by a loop.
    fn is_same(self, a: &[u8; PATCH], b: &[u8; PATCH]) -> bool
        ensures { result ≡ same_at self.place a.now b.now }
    {
        let k = self.place;
        if a[k] != b[k] {
            return false;
        }
        if k < SOURCE_AT {
            return true;
        }
        a[k + 1] == b[k + 1] && a[k + 2] == b[k + 2]
    }
}

// The parts in which two patches differ, by rising byte place.
#[derive(Drop)]
pub struct Differing<'a> {
    a: &'a [u8; PATCH],
    b: &'a [u8; PATCH],
    at: usize,
    ghost stands: { Stands at },
}

impl<'a> Differing<'a> {
    ghost use Rattle.planner.specs.code.Parts.{left};

    // The pass over the parts of a and b.
    pub fn of(a: &'a [u8; PATCH], b: &'a [u8; PATCH]) -> Self
        ensures { left result ≡ differing parts a.now b.now }
    {
        Differing {
            a,
            b,
            at: NAME_SIZE,
        }
    }
}

impl<'a> Iterator for Differing<'a> {
    ghost use Rattle.planner.specs.code.Parts.{left};

    type Item = Part;

    ghost next_gives = { YieldsFirstBy (λ part. part.place) left };

    ghost remaining = { item_count left };

    // The place is counted by hand, since a step is one byte or three: this is the one walk over the parts. It goes on behind the comparison,
    // where the compiler knows a parameter's step.
    fn next(&mut self) -> Option<Part> {
        while self.at < PATCH {
            let part = Part { place: self.at };
            let same = part.is_same(self.a, self.b);
            self.at += part.width();
            if !same {
                return Some(part);
            }
        }
        None
    }
}
