// A dump by its description.
ghost use Rattle.std.specs.Prelude.{◌≡◌, true, ◌+◌, ◌*◌, ◌≤◌, ◌<◌, T, length, get_or};
ghost use Rattle.answers.specs.Effect.{tested};
ghost use Rattle.answers.specs.Refusals.{told_test};
ghost use Rattle.fields.specs.Fields.{size};
ghost use Rattle.streams.specs.Bytes.{framed};
ghost use Rattle.messages.specs.declared.kinds.Kind.TheVariants.{Dump as of_dump};
ghost use Rattle.messages.specs.declared.kinds.Packed.TheVariants.{Patch as a_patch};
ghost use Rattle.messages.specs.Kinds.{size_of, master};
ghost use Rattle.messages.specs.code.Sizes.{sized, lent_rows};
ghost use Rattle.messages.specs.Judge.{sent_rows, misnumbered, number_in};
ghost use Rattle.judging.specs.code.Counted.{content_of};
ghost use Rattle.judging.specs.code.Judged.{kind_verdict, judged, told_judged, Checked, CheckedIn, sent_rows_in};

use crate::Accepted;
use crate::content::{Content, FRONT, NUMBER, pack_sent};
use answers::Refusal;
use messages::kinds::{Behind, Dump, MASTER, PATCH, Packed};

// Where the data bytes of a patch dump end in its content, and its sum stands.
const PATCH_SENT: usize = FRONT + 2 * PATCH;

// The data bytes of a dump and the sum behind them: 9, 10. The packed bytes are left in `packed`, which fits them; so below.
// The caller has seen the length.
fn check_sent(sent: &[u8], sum: u8, packed: &mut [u8]) -> Result<(), Refusal>
    requires { length sent.now ≡ 2 * length packed.old }
    ensures { Checked sent.now sum packed.new (told_test result) }
{
    pack_sent(sent, packed)?;
    if nibbles::checksum(packed) != sum {
        return Err(Refusal::WrongSum);
    }
    Ok(())
}

// The same from the content, wherever its bytes stand.
fn check_data(content: Content, packed: &mut [u8]) -> Result<(), Refusal>
    requires { 4 + 2 * length packed.old < length (content_of content) }
    ensures { CheckedIn (length packed.old) (content_of content.entry) packed.new (told_test result) }
{
    content.pack(packed)?;
    if content.get(FRONT + 2 * packed.len()) != Some(nibbles::checksum(packed)) {
        return Err(Refusal::WrongSum);
    }
    Ok(())
}

// The tests of packed bytes themselves: 7 for another count of them, then their own 11 and 12.
pub fn test_packed(packed: Packed, bytes: &[u8]) -> Result<(), Refusal>
    ensures { told_test result ≡ tested (lent_rows packed bytes.now) }
{
    match packed {
        Packed::Patch => patch::test(bytes),
        Packed::Split => splits::test(bytes),
        Packed::AnyBytes(count) => ranges::test(count, None, bytes),
    }
}

// The data of a patch, and its fields: 9 to 12, in a room that fits it. The caller below has seen the length.
fn check_patch(sent: &[u8], sum: u8, room: &mut [u8]) -> Result<(), Refusal>
    requires { (length sent.now ≡ 2 * size) × (length room.old ≡ size) }
    ensures { told_test result ≡ tested (sent_rows a_patch sent.now sum) }
{
    check_sent(sent, sum, room)?;
    patch::test(room)
}

// The data of any packed bytes, and their own tests, in a room that fits them. The caller below has seen the length.
fn check_room(packed: Packed, content: Content, room: &mut [u8]) -> Result<(), Refusal>
    requires { (length (content_of content) ≡ 5 + 2 * size_of packed) × (length room.old ≡ size_of packed) }
    ensures { told_test result ≡ tested (sent_rows_in packed (content_of content.entry)) }
{
    check_data(content, room)?;
    test_packed(packed, room)
}

// `true` only for a patch without real time.
fn is_plain_patch(packed: Packed, content: Content) -> bool
    ensures { result ≡ true → (packed ≡ a_patch) × (content_of content.entry ≡ content.entry.body.now) }
{
    match packed {
        Packed::Patch => content.is_whole(),
        _ => false,
    }
}

// The data and the packed bytes of a dump: 9 to 12. The caller below has seen the length.
fn check_packed(packed: Packed, content: Content) -> Result<(), Refusal>
    requires { (length (content_of content) ≡ 5 + 2 * size_of packed) × (size_of packed ≤ master) }
    ensures { told_test result ≡ tested (sent_rows_in packed (content_of content.entry)) }
{
    let mut room = [0u8; MASTER];
    if is_plain_patch(packed, content) {
        // By numbers that the compiler sees.
        let body = content.body;
        return check_patch(
            &body[FRONT..PATCH_SENT],
            body[PATCH_SENT],
            &mut room[..PATCH],
        );
    }
    check_room(packed, content, &mut room[..packed.size()])
}

// The byte behind a dump's opcode does not pass.
pub fn wrong_number(behind: Behind, byte: u8) -> bool
    ensures { result ≡ misnumbered behind byte }
{
    match behind {
        Behind::NumberTo(greatest) => greatest < byte,
        Behind::Always(same) => byte != same,
    }
}

// What comes with the answer: the number, or zero.
fn number_of(behind: Behind, byte: u8) -> u8
    ensures { result ≡ get_or (number_in behind byte) 0 0 }
{
    match behind {
        Behind::NumberTo(_) => byte,
        Behind::Always(_) => 0,
    }
}

// A dump: 7, then 8 to 12. The caller has the kind from its opcode.
pub(crate) fn judge_dump(kind: Dump, content: Content) -> Result<Accepted, Refusal>
    requires { T (sized (of_dump kind)) }
    ensures { told_judged result ≡ judged (kind_verdict (of_dump kind) (framed (content_of content.entry))) }
{
    if content.len() + 2 != kind.length {
        return Err(Refusal::WrongLength);
    }
    let number = content.get(NUMBER).unwrap_or(0);
    if wrong_number(kind.behind, number) {
        return Err(Refusal::NotAllowed);
    }
    check_packed(kind.packed, content)?;
    Ok(Accepted {
        opcode: kind.opcode,
        bytes: [number_of(kind.behind, number), 0, 0, 0],
    })
}
