// The kinds of message that the desk files: opcode and length of each, what it is made of, and which kind an opcode finds.
ghost use Rattle.std.specs.Prelude.{◌≡◌};
ghost use Rattle.messages.specs.Kinds.{kind_of, size_of, count_of};
ghost use Rattle.messages.specs.code.Sizes.{packed_size};

use operations::{LAST_PATCH, Operation};

// Every message of ours has these behind its F0H.
pub const MAKER: u8 = 0x10;

pub const DEVICE: u8 = 0x06;

// Single patch: number, 268 nibbles, sum.
#[derive(Clone, Copy)]
pub struct SinglePatch;

impl SinglePatch {
    pub const OPCODE: u8 = 0x01;

    pub const LENGTH: usize = 275;
}

// Split patch: number, 36 nibbles, sum.
#[derive(Clone, Copy)]
pub struct SplitPatch;

impl SplitPatch {
    pub const OPCODE: u8 = 0x02;

    pub const LENGTH: usize = 43;
}

// Master parameters: version, 344 nibbles, sum.
#[derive(Clone, Copy)]
pub struct MasterParameters;

impl MasterParameters {
    pub const OPCODE: u8 = 0x03;

    pub const LENGTH: usize = 351;

    pub const VERSION: u8 = 3;
}

// Request data: type, number.
#[derive(Clone, Copy)]
pub struct RequestData;

impl RequestData {
    pub const OPCODE: u8 = 0x04;

    pub const LENGTH: usize = 7;
}

// Remote edit: parameter, value.
#[derive(Clone, Copy)]
pub struct RemoteEdit;

impl RemoteEdit {
    pub const OPCODE: u8 = 0x06;

    pub const LENGTH: usize = 7;
}

// Set group mode: total, ID.
#[derive(Clone, Copy)]
pub struct GroupMode;

impl GroupMode {
    pub const OPCODE: u8 = 0x07;

    pub const LENGTH: usize = 7;
}

// Set bank: bank.
#[derive(Clone, Copy)]
pub struct SetBank;

impl SetBank {
    pub const OPCODE: u8 = 0x0A;

    pub const LENGTH: usize = 6;
}

// Matrix modulation edit: bus, source, amount, destination.
#[derive(Clone, Copy)]
pub struct BusEdit;

impl BusEdit {
    pub const OPCODE: u8 = 0x0B;

    pub const LENGTH: usize = 9;
}

// Unlock bank.
#[derive(Clone, Copy)]
pub struct UnlockBank;

impl UnlockBank {
    pub const OPCODE: u8 = 0x0C;

    pub const LENGTH: usize = 5;
}

// Single patch to the edit buffer: zero, 268 nibbles, sum.
#[derive(Clone, Copy)]
pub struct EditBuffer;

impl EditBuffer {
    pub const OPCODE: u8 = 0x0D;

    pub const LENGTH: usize = 275;
}

// Store edit buffer: number, bank, ID.
#[derive(Clone, Copy)]
pub struct StoreEditBuffer;

impl StoreEditBuffer {
    pub const OPCODE: u8 = 0x0E;

    pub const LENGTH: usize = 8;
}

// The packed bytes of a patch, of a split and of a master.
pub const PATCH: usize = patch::SIZE;

pub const SPLIT: usize = splits::SIZE;

pub const MASTER: usize = 172;

// The byte behind a dump's opcode: a number up to a greatest, which comes with the answer; or always the same byte, which does not.
#[derive(Clone, Copy, Debug, PartialEq, Eq)]
pub enum Behind {
    NumberTo(u8),
    Always(u8),
}

// The packed bytes of a dump: a patch or a split, which have their own tests, or so many bytes of any value.
#[derive(Clone, Copy, Debug, PartialEq, Eq)]
pub enum Packed {
    Patch,
    Split,
    AnyBytes(usize),
}

impl Packed {
    // How many they are.
    pub fn size(self) -> usize
        ensures { result ≡ size_of self }
    {
        match self {
            Packed::Patch => PATCH,
            Packed::Split => SPLIT,
            Packed::AnyBytes(count) => count,
        }
    }
}

// A dump's kind.
#[derive(Clone, Copy, Debug, PartialEq, Eq)]
pub struct Dump {
    pub opcode: u8,
    pub length: usize,
    pub behind: Behind,
    pub packed: Packed,
}

// The bytes behind a short message's opcode, with their own tests: an edit's two, a bus edit's four, or those of an operation.
#[derive(Clone, Copy, Debug, PartialEq, Eq)]
pub enum Operands {
    Edit,
    BusEdit,
    Operation(Operation),
}

impl Operands {
    // How many they are.
    pub fn count(self) -> usize
        ensures { result ≡ count_of self }
    {
        match self {
            Operands::Edit => 2,
            Operands::BusEdit => 4,
            Operands::Operation(operation) => operation.count(),
        }
    }
}

// A short message's kind.
#[derive(Clone, Copy, Debug, PartialEq, Eq)]
pub struct Short {
    pub opcode: u8,
    pub length: usize,
    pub operands: Operands,
}

// What an opcode finds. `Unknown` is a kind, and no Option is around it, since the definitions under the theorems go by kinds with it
// (`kind_of`, `message`, `kind_table` and others).
#[derive(Clone, Copy, Debug, PartialEq, Eq)]
pub enum Kind {
    Dump(Dump),
    Short(Short),
    Unknown,
}

impl Kind {
    // How many packed bytes a message of this kind has: none where it is no dump.
    pub fn packed_size(self) -> usize
        ensures { result ≡ packed_size self }
    {
        match self {
            Kind::Dump(dump) => dump.packed.size(),
            Kind::Short(_) | Kind::Unknown => 0,
        }
    }
}

pub const SINGLE_PATCH: Dump = Dump {
    opcode: SinglePatch::OPCODE,
    length: SinglePatch::LENGTH,
    behind: Behind::NumberTo(LAST_PATCH),
    packed: Packed::Patch,
};

pub const SPLIT_PATCH: Dump = Dump {
    opcode: SplitPatch::OPCODE,
    length: SplitPatch::LENGTH,
    behind: Behind::NumberTo(49),
    packed: Packed::Split,
};

pub const MASTER_PARAMETERS: Dump = Dump {
    opcode: MasterParameters::OPCODE,
    length: MasterParameters::LENGTH,
    behind: Behind::Always(MasterParameters::VERSION),
    packed: Packed::AnyBytes(MASTER),
};

pub const REQUEST_DATA: Short = Short {
    opcode: RequestData::OPCODE,
    length: RequestData::LENGTH,
    operands: Operands::Operation(Operation::Request),
};

pub const REMOTE_EDIT: Short = Short {
    opcode: RemoteEdit::OPCODE,
    length: RemoteEdit::LENGTH,
    operands: Operands::Edit,
};

pub const GROUP_MODE: Short = Short {
    opcode: GroupMode::OPCODE,
    length: GroupMode::LENGTH,
    operands: Operands::Operation(Operation::Group),
};

pub const SET_BANK: Short = Short {
    opcode: SetBank::OPCODE,
    length: SetBank::LENGTH,
    operands: Operands::Operation(Operation::Bank),
};

pub const BUS_EDIT: Short = Short {
    opcode: BusEdit::OPCODE,
    length: BusEdit::LENGTH,
    operands: Operands::BusEdit,
};

pub const UNLOCK_BANK: Short = Short {
    opcode: UnlockBank::OPCODE,
    length: UnlockBank::LENGTH,
    operands: Operands::Operation(Operation::Unlock),
};

pub const EDIT_BUFFER: Dump = Dump {
    opcode: EditBuffer::OPCODE,
    length: EditBuffer::LENGTH,
    behind: Behind::Always(0),
    packed: Packed::Patch,
};

pub const STORE_EDIT_BUFFER: Short = Short {
    opcode: StoreEditBuffer::OPCODE,
    length: StoreEditBuffer::LENGTH,
    operands: Operands::Operation(Operation::Store),
};

// The kind of an opcode.
#[tactic(auto, unfolding(crate::specs::Kinds::kind_of))]
pub fn kind_of(opcode: u8) -> Kind
    ensures { result ≡ kind_of opcode }
{
    match opcode {
        SinglePatch::OPCODE => Kind::Dump(SINGLE_PATCH),
        SplitPatch::OPCODE => Kind::Dump(SPLIT_PATCH),
        MasterParameters::OPCODE => Kind::Dump(MASTER_PARAMETERS),
        RequestData::OPCODE => Kind::Short(REQUEST_DATA),
        RemoteEdit::OPCODE => Kind::Short(REMOTE_EDIT),
        GroupMode::OPCODE => Kind::Short(GROUP_MODE),
        SetBank::OPCODE => Kind::Short(SET_BANK),
        BusEdit::OPCODE => Kind::Short(BUS_EDIT),
        UnlockBank::OPCODE => Kind::Short(UNLOCK_BANK),
        EditBuffer::OPCODE => Kind::Dump(EDIT_BUFFER),
        StoreEditBuffer::OPCODE => Kind::Short(STORE_EDIT_BUFFER),
        _ => Kind::Unknown,
    }
}
