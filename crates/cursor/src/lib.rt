// Nothing but the input and its place: a struct that holds both, with thin methods over the walk and over reading a record.
// `report_from` and `read_from` have plain parameters: whoever calls them needs no struct.
#![tactic(auto)]

ghost use Rattle.std.specs.Prelude.{◌≡◌};
ghost use Rattle.answers.specs.Effect.{Gives};
ghost use Rattle.reading.specs.code.Told.{walked, reads};

use reading::recording::Reading;
use reading::walking::Report;

// An input, and a place of it.
#[derive(Clone, Copy, Debug, PartialEq, Eq)]
pub struct Cursor<'a> {
    pub input: &'a [u8],
    pub place: usize,
}

impl<'a> Cursor<'a> {
    // At the input's start.
    pub fn over(input: &'a [u8]) -> Cursor<'a>
        ensures { (result.input ≡ input.entry) × (result.place ≡ 0) }
    {
        Cursor { input, place: 0 }
    }

    // Where it stands.
    pub fn place(self) -> usize
        ensures { result ≡ self.entry.place }
    {
        self.place
    }

    // The same input at another place: to go on, the end of the last report.
    pub fn moved(self, place: usize) -> Cursor<'a>
        ensures { (result.input ≡ self.entry.input) × (result.place ≡ place) }
    {
        Cursor { place, ..self }
    }

    // The walk from where it stands.
    pub fn next(self) -> Report
        ensures { result ≡ walked self.entry.input.now self.entry.place }
    {
        reading::walking::walk(self.input, self.place)
    }

    // Reading a record from where it stands.
    pub fn read_record(self, buffer: &mut [u8]) -> Reading
        ensures { Gives (reads self.entry.input.now self.entry.place buffer.old) result buffer.new }
    {
        reading::recording::read(self.input, self.place, buffer)
    }
}

// The walk of an input from a place, by way of a cursor.
pub fn report_from(s: &[u8], place: usize) -> Report
    ensures { result ≡ walked s.now place }
{
    Cursor::over(s).moved(place).next()
}

// Reading a record of an input from a place, by way of a cursor.
pub fn read_from(s: &[u8], place: usize, buffer: &mut [u8]) -> Reading
    ensures { Gives (reads s.now place buffer.old) result buffer.new }
{
    Cursor::over(s).moved(place).read_record(buffer)
}
