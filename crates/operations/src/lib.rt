// The bytes behind the opcode of the five operations, by source document 000: how many each has, and which values they may have.
#![tactic(auto)]

ghost use Rattle.std.specs.Prelude.{◌≡◌, [], ◌∷◌};
ghost use Rattle.operations.specs.Operations.{a_request, a_group, a_store, bytes_of, allowed as allowed_for};

// Request data, set group mode, set bank, unlock bank, store edit buffer.
#[derive(Clone, Copy, Debug, PartialEq, Eq)]
pub enum Operation {
    Request,
    Group,
    Bank,
    Unlock,
    Store,
}

impl Operation {
    // How many bytes it has.
    pub fn count(self) -> usize
        ensures { result ≡ bytes_of self }
    {
        match self {
            Operation::Request => 2,
            Operation::Group => 2,
            Operation::Bank => 1,
            Operation::Unlock => 0,
            Operation::Store => 3,
        }
    }
}

// The last patch of a bank, the last bank, the last ID of a unit in a group, and the ID that is for any unit of it.
pub const LAST_PATCH: u8 = 99;

pub const LAST_BANK: u8 = 9;

pub const LAST_UNIT: u8 = 5;

pub const ANY_UNIT: u8 = 0x7F;

// The types of a request: the message's own bytes, read in one place alone. An enum and its `TryFrom` would say the same four numbers again.
const EVERYTHING: u8 = 0;

const ONE_PATCH: u8 = 1;

const MASTER: u8 = 3;

const EDIT_BUFFER: u8 = 4;

// How many units a group has.
const FEWEST_UNITS: u8 = 2;

const MOST_UNITS: u8 = 6;

// A patch has a number; everything else that can be requested has 0 in its place.
#[tactic(auto, unfolding(crate::specs::Operations::allowed))]
fn request_allowed(kind: u8, number: u8) -> bool
    ensures { result ≡ allowed_for a_request (kind ∷ number ∷ []) }
{
    match kind {
        EVERYTHING | MASTER | EDIT_BUFFER => number == 0,
        ONE_PATCH => number <= LAST_PATCH,
        _ => false,
    }
}

// The total of units, and the ID of the one that hears it.
#[tactic(auto, unfolding(crate::specs::Operations::allowed))]
fn group_allowed(total: u8, id: u8) -> bool
    ensures { result ≡ allowed_for a_group (total ∷ id ∷ []) }
{
    (FEWEST_UNITS..=MOST_UNITS).contains(&total) && id <= LAST_UNIT
}

// The ID is that of a unit, or of any.
#[tactic(auto, unfolding(crate::specs::Operations::allowed))]
fn store_allowed(number: u8, bank: u8, id: u8) -> bool
    ensures { result ≡ allowed_for a_store (number ∷ bank ∷ id ∷ []) }
{
    number <= LAST_PATCH && bank <= LAST_BANK && (id <= LAST_UNIT || id == ANY_UNIT)
}

// The bytes are as many as the operation has, and their values are allowed.
#[tactic(auto, using(crate::proofs::Forms::other_count), unfolding(crate::specs::Operations::allowed))]
pub fn allowed(operation: Operation, bytes: &[u8]) -> bool
    ensures { result ≡ allowed_for operation bytes.now }
{
    match (operation, bytes) {
        (Operation::Request, [kind, number]) => request_allowed(*kind, *number),
        (Operation::Group, [total, id]) => group_allowed(*total, *id),
        (Operation::Bank, [bank]) => *bank <= LAST_BANK,
        (Operation::Unlock, []) => true,
        (Operation::Store, [number, bank, id]) => store_allowed(*number, *bank, *id),
        _ => false,
    }
}
