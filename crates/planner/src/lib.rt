// The planner: the shortest list of edits that turns one patch into another, into a lent output.
#![tactic(auto)]

pub mod parts;

ghost use Rattle.std.specs.Prelude.{◌≡◌, ◌+◌, ◌≤◌, length};
ghost use Rattle.answers.specs.Effect.{Gives, at_start};
ghost use Rattle.answers.specs.Refusals.{told};
ghost use Rattle.messages.specs.Layout.{message_of};
ghost use Rattle.edit_lists.specs.Lists.{message_for, list_bytes};
ghost use Rattle.edit_lists.specs.Plan.{reaching, plan, planning};
ghost use Rattle.edit_lists.specs.code.Left.{length_at};

pub use crate::parts::width_of;
use answers::Refusal;
use fields::{BytePlace, SOURCE_AT};
use frames::{END, START};
use messages::kinds::{BusEdit, DEVICE, MAKER, PATCH, RemoteEdit};
use parts::{Differing, Part};

// How long the list is. The patches go by themselves: the definitions take them so, and a struct of both would be taken apart in each call.
fn list_size(a: &[u8; PATCH], b: &[u8; PATCH]) -> usize
    ensures { result ≡ length (list_bytes (plan a.now b.now)) }
{
    let mut size = 0;
    for part in Differing::of(a, b) {
        size += part.message_length();
    }
    size
}

// The message of an edit at the start of an output. The writers would test the edit again (DECISIONS, 'The planner stores its bytes itself').
fn put_message(opcode: u8, operands: &[u8], out: &mut [u8])
    requires { length operands.now + 5 ≤ length out.old }
    ensures { out.new ≡ at_start (message_of opcode operands.now) out.old }
{
    let end = 4 + operands.len();
    out[..4].copy_from_slice(&[START, MAKER, DEVICE, opcode]);
    out[4..end].copy_from_slice(operands);
    out[end] = END;
}

// The edit that gives a part the bytes that it has in b, at the start of an output.
fn put_edit(part: Part, b: &[u8; PATCH], out: &mut [u8])
    requires { length_at part.place ≤ length out.old }
    ensures { out.new ≡ at_start (message_for (reaching b.now part.place)) out.old }
{
    let k = part.place;
    if k < SOURCE_AT {
        if let Some(parameter) = fields::parameter_of(BytePlace(k as u8)) {
            put_message(RemoteEdit::OPCODE, &[parameter.0, b[k] % 128], out);
        }
        return;
    }
    let bus = (k - SOURCE_AT) / 3;
    put_message(
        BusEdit::OPCODE,
        &[bus as u8, b[k], b[k + 1] % 128, b[k + 2]],
        out,
    );
}

// The edits for all that differs, by rising byte place, at the start of an output.
fn put_list(a: &[u8; PATCH], b: &[u8; PATCH], out: &mut [u8])
    requires { length (list_bytes (plan a.now b.now)) ≤ length out.old }
    ensures { out.new ≡ at_start (list_bytes (plan a.now b.now)) out.old }
{
    let mut at = 0;
    for part in Differing::of(a, b) {
        put_edit(part, b, &mut out[at..]);
        at += part.message_length();
    }
}

// Writes the shortest list of edits that turns patch a into patch b, by rising byte place, and tells how many bytes it has. Refused with
// 7, 11 and 12 of a, then of b, then with 16 where their names differ, then with 13; every byte of the output then stays.
pub fn plan(a: &[u8], b: &[u8], out: &mut [u8]) -> Result<usize, Refusal>
    ensures { Gives (planning a.now b.now out.old) (told result) out.new }
{
    pairs::test_pair(a, b)?;
    // Both have passed their tests, the first of which is the length.
    let a: &[u8; PATCH] = a.try_into().unwrap();
    let b: &[u8; PATCH] = b.try_into().unwrap();
    let size = list_size(a, b);
    if out.len() < size {
        return Err(Refusal::NoRoom);
    }
    put_list(a, b, out);
    Ok(size)
}
