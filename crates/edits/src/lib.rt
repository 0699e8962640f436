// The two edits: their tests, which reading, writing and applying share, and applying one to a lent patch.
#![tactic(auto)]

mod change;

ghost use Rattle.std.specs.Prelude.{◌≡◌, ◌≤◌};
ghost use Rattle.answers.specs.Effect.{Gives, tested};
ghost use Rattle.answers.specs.Refusals.{told_test};
ghost use Rattle.fields.specs.Fields.{place_of};
ghost use Rattle.edits.specs.Edits.{extended, stored_for, edit_rows, bus_rows, with_byte, with_bus, applying, applying_bus};
ghost use Rattle.edits.specs.code.Judged.{Judged};
ghost use Rattle.edits.specs.code.Storing.{storing, storing_bus, Stored};

use crate::change::Change;
use answers::{Found, Refusal};
use fields::{BUS, BUSES, NOT_EXTENDED, Parameter, SOURCE_AT};

const LAST_BUS: u8 = BUSES as u8 - 1;

// A remote edit: a parameter, and its new value in seven bits.
#[derive(Clone, Copy, Debug, PartialEq, Eq)]
pub struct Remote {
    pub parameter: Parameter,
    pub value: u8,
}

// A matrix modulation edit: the three bytes of a bus, the amount in seven bits.
#[derive(Clone, Copy, Debug, PartialEq, Eq)]
pub struct Matrix {
    pub bus: u8,
    pub source: u8,
    pub amount: u8,
    pub destination: u8,
}

// From seven bits to eight: bit 6 is copied into bit 7. The callers below have seen that v is at most 127.
fn extend(v: u8) -> u8
    requires { v ≤ 127 }
    ensures { result ≡ extended v }
{
    if v < 64 {
        return v;
    }
    v + 128
}

// The byte that a remote edit stores: the extended value, but for parameter 21. Its caller has seen that v is at most 127.
fn stored_for(parameter: Parameter, v: u8) -> u8
    requires { v ≤ 127 }
    ensures { result ≡ stored_for parameter.0 v }
{
    if parameter.0 == NOT_EXTENDED {
        return v;
    }
    extend(v)
}

impl Remote {
    // Its byte as it is stored: refused with 8, then with 11, its field's place and the value that it would store.
    fn change(self) -> Result<Change<1>, Refusal>
        ensures { Judged (edit_rows self.parameter.0 self.value)
            (with_byte (place_of self.parameter.0) (stored_for self.parameter.0 self.value)) result }
    {
        let place = fields::place_of(self.parameter).ok_or(Refusal::NotAllowed)?;
        if 127 < self.value {
            return Err(Refusal::NotAllowed);
        }
        let at = place.0 as usize;
        let stored = stored_for(self.parameter, self.value);
        if !fields::in_range(place, stored) {
            let value = fields::value_at(place, stored);
            return Err(Refusal::OutOfRange(Found { place: at, value }));
        }
        Ok(Change {
            at,
            bytes: [stored],
        })
    }

    // Its tests: 8, then 11 with its field's place and the value that it would store.
    pub fn test(self) -> Result<(), Refusal>
        ensures { told_test result ≡ tested (edit_rows self.parameter.0 self.value) }
    {
        self.change()?;
        Ok(())
    }

    // Applies it to a lent patch: its own 8 and 11, then the patch's 7, 11 and 12. Done, the field's byte is the value as stored and every
    // other byte keeps its value; refused, every byte does.
    pub fn apply(self, p: &mut [u8]) -> Result<(), Refusal>
        ensures { Gives (applying self.parameter.0 self.value p.old) (told_test result) p.new }
    {
        self.change()?.apply(p)
    }

    // Stores it in a lent patch whose fields are known to pass, which are not tested again: `true` where it is stored; `false` where its own
    // tests refuse it or the patch has not 134 bytes, and every byte keeps its value.
    pub fn store(self, p: &mut [u8]) -> bool
        ensures { Stored (storing self.parameter.0 self.value p.old) result p.new }
    {
        match self.change() {
            Ok(byte) => byte.store(p),
            Err(_) => false,
        }
    }
}

// The same three as `Remote` has: a trait would carry the rows and what is stored as ghost members, longer than the bodies.
impl Matrix {
    // The three bytes of its bus as they are stored: refused with 8, then with 11, the lowest of their places and the value that it would
    // store, then with 12 and its bus. Every bus has the same ranges.
    fn change(self) -> Result<Change<3>, Refusal>
        ensures { Judged (bus_rows self.bus self.source self.amount self.destination)
            (with_bus self.bus self.source self.amount self.destination) result }
    {
        if LAST_BUS < self.bus {
            return Err(Refusal::NotAllowed);
        }
        if 127 < self.amount {
            return Err(Refusal::NotAllowed);
        }
        let bus = self.bus as usize;
        let at = SOURCE_AT + 3 * bus;
        let bytes = [self.source, extend(self.amount), self.destination];
        if let Some(found) = ranges::first_out(&BUS, &bytes) {
            return Err(Refusal::OutOfRange(Found {
                place: at + found.place,
                value: found.value,
            }));
        }
        if patch::half_used(self.source, self.destination) {
            return Err(Refusal::HalfUsed(bus));
        }
        Ok(Change { at, bytes })
    }

    // Its tests: 8, then 11 with the lowest of its places and the value that it would store, then 12 with its bus.
    pub fn test(self) -> Result<(), Refusal>
        ensures { told_test result ≡ tested (bus_rows self.bus self.source self.amount self.destination) }
    {
        self.change()?;
        Ok(())
    }

    // Applies it to a lent patch: its own 8, 11 and 12, then the patch's 7, 11 and 12. Done, the three bytes of the bus are the edit's, the
    // amount extended, and every other byte keeps its value; refused, every byte does.
    pub fn apply(self, p: &mut [u8]) -> Result<(), Refusal>
        ensures { Gives (applying_bus self.bus self.source self.amount self.destination p.old) (told_test result) p.new }
    {
        self.change()?.apply(p)
    }

    // Stores it in a lent patch likewise.
    pub fn store(self, p: &mut [u8]) -> bool
        ensures { Stored (storing_bus self.bus self.source self.amount self.destination p.old) result p.new }
    {
        match self.change() {
            Ok(change) => change.store(p),
            Err(_) => false,
        }
    }
}
