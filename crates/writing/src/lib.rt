// Messages into a lent output: a writer refuses and keeps every byte, or writes at the output's start and keeps the bytes behind.
#![tactic(auto)]

ghost use Rattle.std.specs.Prelude.{◌≡◌, [], ◌∷◌, ◌++◌, ◌+◌, ◌*◌, ◌/◌, ◌≤◌, T, length, drop};
ghost use Rattle.answers.specs.Effect.{Gives, tested, at_start};
ghost use Rattle.answers.specs.Refusals.{told, told_test};
ghost use Rattle.answers.specs.code.Found.{found_or};
ghost use Rattle.fields.specs.Fields.{size};
ghost use Rattle.nibbles.specs.Nibbles.{sum};
ghost use Rattle.messages.specs.declared.kinds.Kind.TheVariants.{Dump as of_dump, Short as of_short};
ghost use Rattle.messages.specs.Kinds.{single_patch, split_patch, master_parameters, edit_buffer, remote_edit, bus_edit};
ghost use Rattle.messages.specs.Kinds.{request_data, group_mode, set_bank, unlock_bank, store_edit_buffer};
ghost use Rattle.messages.specs.code.Sizes.{sized};
ghost use Rattle.messages.specs.Layout.{dump, dump_given};
ghost use Rattle.writing.specs.Writing.{writing, writing_bank, bank_bytes, first_bad, bank_most};
ghost use Rattle.writing.specs.code.Writers.{writing_dump, refused_bank, told_bank, told_patches};

use answers::{Placed, Refusal};
use edits::{Matrix, Remote};
use judging::dumps::{test_packed, wrong_number};
use judging::shorts::test_operands;
use messages::kinds::{
    BUS_EDIT, DEVICE, Dump, EDIT_BUFFER, GROUP_MODE, MAKER, MASTER_PARAMETERS, MasterParameters,
    PATCH, REMOTE_EDIT, REQUEST_DATA, SET_BANK, SINGLE_PATCH, SPLIT_PATCH, STORE_EDIT_BUFFER,
    Short, SinglePatch, UNLOCK_BANK,
};

// A bank has at most 100 patches.
const BANK: usize = 100 * PATCH;

// Why a bank is refused, and as place the number of the patch that is refused, 0 with other refusals: no `Option`, since C is told it so.
#[derive(Clone, Copy, Debug, PartialEq, Eq)]
pub struct BankRefusal {
    pub refusal: Refusal,
    pub place: usize,
}

// One that is about no patch.
impl From<Refusal> for BankRefusal {
    ghost from_gives = { λ r b. b ≡ refused_bank r 0 };

    fn from(refusal: Refusal) -> BankRefusal {
        BankRefusal { refusal, place: 0 }
    }
}

// What a bank comes to, as C is told it. No `From`: neither `Result` nor `Placed` is of this crate.
pub fn placed(answer: Result<usize, BankRefusal>) -> Placed
    ensures { result ≡ told_bank answer }
{
    match answer {
        Ok(detail) => answers::no_place(answers::done(detail)),
        Err(bank) => Placed {
            outcome: bank.refusal.into(),
            place: bank.place,
        },
    }
}

// F0H, maker, device, opcode. The callers below have seen that the message fits.
fn put_opening(opcode: u8, out: &mut [u8])
    requires { 4 ≤ length out.old }
    ensures { out.new ≡ (0xF0 ∷ 0x10 ∷ 0x06 ∷ opcode ∷ []) ++ drop 4 out.old }
{
    out[..4].copy_from_slice(&[frames::START, MAKER, DEVICE, opcode]);
}

// The sum of packed bytes, and F7H. `put_dump` has seen that they fit.
fn put_closing(packed: &[u8], out: &mut [u8])
    requires { 2 ≤ length out.old }
    ensures { out.new ≡ (sum packed.now ∷ 0xF7 ∷ []) ++ drop 2 out.old }
{
    out[..2].copy_from_slice(&[nibbles::checksum(packed), frames::END]);
}

// One dump of any kind at the start of an output. The callers below have seen that it fits.
fn put_dump(opcode: u8, number: u8, packed: &[u8], out: &mut [u8])
    requires { 2 * length packed.now + 7 ≤ length out.old }
    ensures { out.new ≡ at_start (dump opcode number packed.now) out.old }
{
    put_opening(opcode, out);
    out[4] = number;
    let _ = nibbles::unpack_into(packed, &mut out[5..]);
    let end = 5 + 2 * packed.len();
    put_closing(packed, &mut out[end..]);
}

// What the writer of a dump tests: 7, 8, then the packed bytes' own 11 and 12.
fn test_dump(kind: Dump, number: u8, p: &[u8]) -> Result<(), Refusal>
    ensures { told_test result ≡ tested (dump_given kind number p.now) }
{
    if p.len() != kind.packed.size() {
        return Err(Refusal::WrongLength);
    }
    if wrong_number(kind.behind, number) {
        return Err(Refusal::NotAllowed);
    }
    test_packed(kind.packed, p)
}

// Writes a dump by its description: its tests, then 13. Done with its length.
fn write_dump(kind: Dump, number: u8, p: &[u8], out: &mut [u8]) -> Result<usize, Refusal>
    requires { T (sized (of_dump kind)) }
    ensures { Gives (writing_dump kind number p.now out.old) (told result) out.new }
{
    test_dump(kind, number, p)?;
    if out.len() < kind.length {
        return Err(Refusal::NoRoom);
    }
    put_dump(kind.opcode, number, p, out);
    Ok(kind.length)
}

// Writes a numbered patch: 7 for a patch that is not 134 bytes, 8 for a number above 99, the patch's own 11 and 12, then 13. Done
// with detail 275.
pub fn write_patch(number: u8, p: &[u8], out: &mut [u8]) -> Result<usize, Refusal>
    ensures { Gives (writing (of_dump single_patch) (number ∷ []) p.now out.old) (told result) out.new }
{
    write_dump(SINGLE_PATCH, number, p, out)
}

// Writes a numbered split: 7 for a split that is not 18 bytes, 8 for a number above 49, the split's own 11, then 13. Done with detail 43.
pub fn write_split(number: u8, p: &[u8], out: &mut [u8]) -> Result<usize, Refusal>
    ensures { Gives (writing (of_dump split_patch) (number ∷ []) p.now out.old) (told result) out.new }
{
    write_dump(SPLIT_PATCH, number, p, out)
}

// Writes a patch to the edit buffer, which has no number: the patch's own 7, 11 and 12, then 13. Done with detail 275.
pub fn write_edit_buffer(p: &[u8], out: &mut [u8]) -> Result<usize, Refusal>
    ensures { Gives (writing (of_dump edit_buffer) [] p.now out.old) (told result) out.new }
{
    write_dump(EDIT_BUFFER, 0, p, out)
}

// Writes master parameters, version 3: 7 for a master that is not 172 bytes, then 13. Done with detail 351.
pub fn write_master(m: &[u8], out: &mut [u8]) -> Result<usize, Refusal>
    ensures { Gives (writing (of_dump master_parameters) [] m.now out.old) (told result) out.new }
{
    write_dump(MASTER_PARAMETERS, MasterParameters::VERSION, m, out)
}

// Writes a short message by its description: the tests of its bytes, then 13. Done with its length.
fn write_short(kind: Short, bytes: &[u8], out: &mut [u8]) -> Result<usize, Refusal>
    requires { T (sized (of_short kind)) }
    ensures { Gives (writing (of_short kind) bytes.now [] out.old) (told result) out.new }
{
    test_operands(kind.operands, bytes)?;
    if out.len() < kind.length {
        return Err(Refusal::NoRoom);
    }
    let end = kind.length - 1;
    put_opening(kind.opcode, out);
    out[4..end].copy_from_slice(bytes);
    out[end] = frames::END;
    Ok(kind.length)
}

// Writes a remote edit: its own 8 and 11, then 13. Done with detail 7.
pub fn write_edit(edit: Remote, out: &mut [u8]) -> Result<usize, Refusal>
    ensures { Gives (writing (of_short remote_edit) (edit.parameter.0 ∷ edit.value ∷ []) [] out.old) (told result) out.new }
{
    write_short(REMOTE_EDIT, &[edit.parameter.0, edit.value], out)
}

// Writes a matrix modulation edit: its own 8, 11 and 12, then 13. Done with detail 9.
pub fn write_bus_edit(edit: Matrix, out: &mut [u8]) -> Result<usize, Refusal>
    ensures { Gives (writing (of_short bus_edit) (edit.bus ∷ edit.source ∷ edit.amount ∷ edit.destination ∷ []) [] out.old) (told result) out.new }
{
    write_short(
        BUS_EDIT,
        &[edit.bus, edit.source, edit.amount, edit.destination],
        out,
    )
}

// Writes a request for data: 8 for a type that is none, or a number that it has not, then 13. Done with detail 7.
pub fn write_request_data(kind: u8, number: u8, out: &mut [u8]) -> Result<usize, Refusal>
    ensures { Gives (writing (of_short request_data) (kind ∷ number ∷ []) [] out.old) (told result) out.new }
{
    write_short(REQUEST_DATA, &[kind, number], out)
}

// Writes group mode: 8 for a total that is not 2 to 6, or an ID above 5, then 13. Done with detail 7.
pub fn write_group_mode(total: u8, id: u8, out: &mut [u8]) -> Result<usize, Refusal>
    ensures { Gives (writing (of_short group_mode) (total ∷ id ∷ []) [] out.old) (told result) out.new }
{
    write_short(GROUP_MODE, &[total, id], out)
}

// Writes set bank: 8 for a bank above 9, then 13. Done with detail 6.
pub fn write_set_bank(bank: u8, out: &mut [u8]) -> Result<usize, Refusal>
    ensures { Gives (writing (of_short set_bank) (bank ∷ []) [] out.old) (told result) out.new }
{
    write_short(SET_BANK, &[bank], out)
}

// Writes unlock bank: 13. Done with detail 5.
pub fn write_unlock_bank(out: &mut [u8]) -> Result<usize, Refusal>
    ensures { Gives (writing (of_short unlock_bank) [] [] out.old) (told result) out.new }
{
    write_short(UNLOCK_BANK, &[], out)
}

// Writes store edit buffer: 8 for a number above 99, a bank above 9, or an ID that is neither 0 to 5 nor 7FH, then 13. Done with detail 8.
pub fn write_store_edit_buffer(
    number: u8,
    bank: u8,
    id: u8,
    out: &mut [u8],
) -> Result<usize, Refusal>
    ensures { Gives (writing (of_short store_edit_buffer) (number ∷ bank ∷ id ∷ []) [] out.old) (told result) out.new }
{
    write_short(STORE_EDIT_BUFFER, &[number, bank, id], out)
}

// The patches of a bank in their order: the lowest bad one's own 11 or 12, with its number as place. Under `map_err` a closure would take the
// place in, and the proof does not reach what it returns.
fn test_bank(ps: &[u8]) -> Result<(), BankRefusal>
    ensures { told_patches result ≡ found_or (first_bad (length ps.now / size) 0 ps.now) }
{
    let (patches, _) = ps.as_chunks::<PATCH>();
    for (place, p) in patches.iter().enumerate() {
        if let Err(refusal) = patch::test(p) {
            return Err(BankRefusal { refusal, place });
        }
    }
    Ok(())
}

// Dump after dump, each from its own place. `write_bank` has tested the length and the room.
fn put_bank(ps: &[u8], out: &mut [u8])
    requires { (length ps.now ≤ bank_most) × (length ps.now / size * single_patch.length ≤ length out.old) }
    ensures { out.new ≡ bank_bytes ps.now ++ drop (length ps.now / size * single_patch.length) out.old }
{
    let (patches, _) = ps.as_chunks::<PATCH>();
    for (k, p) in patches.iter().enumerate() {
        let at = k * SinglePatch::LENGTH;
        put_dump(SinglePatch::OPCODE, k as u8, p, &mut out[at..]);
    }
}

// Writes a bank of 0 to 100 patches end to end, numbered from 0: 7 for a length that is not a multiple of 134 or above 13,400, then
// the lowest bad patch's own 11 or 12 with its number as place, then 13. Done with the bytes written as detail.
pub fn write_bank(ps: &[u8], out: &mut [u8]) -> Result<usize, BankRefusal>
    ensures { Gives (writing_bank ps.now out.old) (told_bank result) out.new }
{
    if ps.len() % PATCH != 0 || BANK < ps.len() {
        return Err(Refusal::WrongLength.into());
    }
    test_bank(ps)?;
    let size = ps.len() / PATCH * SinglePatch::LENGTH;
    if out.len() < size {
        return Err(Refusal::NoRoom.into());
    }
    put_bank(ps, out);
    Ok(size)
}
