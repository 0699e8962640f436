// A unit that follows the operations that it is sent: its bank, its bank lock, group mode and its number in the group.
#![tactic(auto)]

ghost use Rattle.std.specs.Prelude.{◌≡◌};
ghost use Rattle.units.specs.Units.{in_bank, unlocked, in_group, meant_for, stays, joined, obeyed, by_kind};
ghost use Rattle.units.specs.code.Steps.{done_by, told, steps};

use frames::{END, START};
use messages::kinds::{DEVICE, GroupMode, Kind, MAKER, Operands, Short, kind_of};
use operations::{ANY_UNIT, LAST_UNIT, Operation};
use reading::recording::walk_with_bytes;
use reading::walking::Report;

// The length of the message that is sent on.
const SENT: usize = GroupMode::LENGTH;

// What a unit keeps. Its number counts while it is in group mode: two fields, since C has this struct, and a number outlives its group.
#[repr(C)]
#[derive(Clone, Copy, Debug, PartialEq, Eq)]
pub struct Unit {
    pub bank: u8,
    pub locked: bool,
    pub grouped: bool,
    pub number: u8,
}

// What a message does: its report, the unit after it, whether it is a store message that is meant for this unit, and the message that is
// sent on with the count of its bytes, zeros where there is none. The struct of the C interface: so a count beside the bytes.
#[repr(C)]
#[derive(Clone, Copy)]
pub struct Step {
    pub report: Report,
    pub unit: Unit,
    pub meant: bool,
    pub count: u8,
    pub sent: [u8; SENT],
}

// What a message does to a unit, without its report.
#[derive(Clone, Copy, Debug, PartialEq, Eq)]
struct Act {
    unit: Unit,
    meant: bool,
    sent: Option<[u8; SENT]>,
}

impl Act {
    // The step, with the report of its message.
    fn step(self, report: Report) -> Step
        ensures { result ≡ told report (done_by self) }
    {
        let Act { unit, meant, sent } = self;
        match sent {
            Some(sent) => Step {
                report,
                unit,
                meant,
                count: SENT as u8,
                sent,
            },
            None => Step {
                report,
                unit,
                meant,
                count: 0,
                sent: [0; SENT],
            },
        }
    }
}

impl Unit {
    // A store message with that ID is meant for this unit: out of a group 0, in one its own number or the ID for any.
    pub fn meant_for(self, id: u8) -> bool
        ensures { result ≡ meant_for self id }
    {
        if self.grouped {
            id == ANY_UNIT || id == self.number
        } else {
            id == 0
        }
    }

    // After set bank: in that bank, which is locked.
    fn in_bank(self, bank: u8) -> Unit
        ensures { result ≡ in_bank bank self }
    {
        Unit {
            bank,
            locked: true,
            ..self
        }
    }

    // After unlock bank.
    fn unlocked(self) -> Unit
        ensures { result ≡ unlocked self }
    {
        Unit {
            locked: false,
            ..self
        }
    }

    // After group mode: in the group with that ID as its number.
    fn in_group(self, id: u8) -> Unit
        ensures { result ≡ in_group id self }
    {
        Unit {
            grouped: true,
            number: id,
            ..self
        }
    }

    // The unit is this one, sends nothing on, and stores nothing.
    fn stays(self) -> Act
        ensures { done_by result ≡ stays self }
    {
        Act {
            unit: self,
            meant: false,
            sent: None,
        }
    }

    // The unit enters the group, and sends the message on with the ID raised by one, unless it has the last.
    fn joins(self, total: u8, id: u8) -> Act
        ensures { done_by result ≡ joined self total id }
    {
        let sent = if id < LAST_UNIT {
            Some([START, MAKER, DEVICE, GroupMode::OPCODE, total, id + 1, END])
        } else {
            None
        };
        Act {
            sent,
            ..self.in_group(id).stays()
        }
    }

    // An operation with its bytes.
    fn obeys(self, operation: Operation, bytes: [u8; 4]) -> Act
        ensures { done_by result ≡ obeyed self operation bytes }
    {
        match operation {
            Operation::Request => self.stays(),
            Operation::Group => self.joins(bytes[0], bytes[1]),
            Operation::Bank => self.in_bank(bytes[0]).stays(),
            Operation::Unlock => self.unlocked().stays(),
            Operation::Store => Act {
                meant: self.meant_for(bytes[2]),
                ..self.stays()
            },
        }
    }

    // A message that is accepted, by its kind: dumps and edits change nothing.
    fn takes(self, kind: Kind, bytes: [u8; 4]) -> Act
        ensures { done_by result ≡ by_kind self kind bytes }
    {
        match kind {
            Kind::Short(
                Short {
                    operands: Operands::Operation(operation),
                    ..
                },
            ) => self.obeys(operation, bytes),
            _ => self.stays(),
        }
    }

    // The step that the unit makes: what the first message that starts at a place or later does to it. A message that is refused, and none,
    // does nothing.
    pub fn follow(self, s: &[u8], place: usize) -> Step
        ensures { result ≡ steps self s.now place }
    {
        let reading = walk_with_bytes(s, place);
        let report = reading.report;
        // The detail of an accepted message is its opcode, read back: the step is defined by the walk's report, which is what C is told.
        let act = if report.outcome.is_done() {
            self.takes(kind_of((report.outcome.detail % 256) as u8), reading.bytes)
        } else {
            self.stays()
        };
        act.step(report)
    }
}
