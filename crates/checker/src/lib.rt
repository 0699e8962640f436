// The checker: accepts a right list of edits, whoever made it. It goes through the list once, on a patch of its own.
#![tactic(auto)]

ghost use Rattle.std.specs.Prelude.{◌≡◌};
ghost use Rattle.answers.specs.Refusals.{told_test};
ghost use Rattle.edit_lists.specs.promises.Shortest.{Good};
ghost use Rattle.edit_lists.specs.Check.{first_edit, checking};
ghost use Rattle.checker.specs.code.Steps.{Follows, last_patch, Turns};

use answers::Refusal;
use edits::{Matrix, Remote};
use fields::Parameter;
use frames::{END, START};
use messages::kinds::{BusEdit, DEVICE, MAKER, PATCH, RemoteEdit};
use pairs::same;

// How the messages of the two edits begin.
const REMOTE: [u8; 4] = [START, MAKER, DEVICE, RemoteEdit::OPCODE];

const MATRIX: [u8; 4] = [START, MAKER, DEVICE, BusEdit::OPCODE];

// Applies the edit whose message bytes begin with, and gives the bytes behind it: nothing where none is there or it is refused. The patch
// has passed its tests, and an edit that is allowed leaves one that does, so that only the edit's own tests are made.
fn follow<'s>(p: &mut [u8], s: &'s [u8]) -> Option<&'s [u8]>
    requires { Good p.old }
    ensures { Follows (first_edit s.now) p.old s.now result p.new }
{
    let (opening, own) = s.split_first_chunk()?;
    if *opening == REMOTE {
        let [parameter, value, END, rest @ ..] = own else {
            return None;
        };
        let edit = Remote {
            parameter: Parameter(*parameter),
            value: *value,
        };
        return edit.store(p).then_some(rest);
    }
    if *opening == MATRIX {
        let [bus, source, amount, destination, END, rest @ ..] = own else {
            return None;
        };
        let edit = Matrix {
            bus: *bus,
            source: *source,
            amount: *amount,
            destination: *destination,
        };
        return edit.store(p).then_some(rest);
    }
    None
}

// Applies a list message by message: `true` where it is one, and every edit was allowed in turn.
fn turn(p: &mut [u8], list: &[u8]) -> bool
    requires { Good p.old }
    ensures { Turns (last_patch list.now p.old) result p.new }
{
    let mut rest = list;
    // Nothing is counted: it goes on with what is left.
    while !rest.is_empty() {
        let Some(behind) = follow(p, rest) else {
            return false;
        };
        rest = behind;
    }
    true
}

// Checks a list of edits that is to turn patch a into patch b: 7, 11 and 12 of a, then of b, then 16 where their names differ, then 20
// for any list that is not accepted.
pub fn check_plan(a: &[u8], b: &[u8], list: &[u8]) -> Result<(), Refusal>
    ensures { told_test result ≡ checking a.now b.now list.now }
{
    pairs::test_pair(a, b)?;
    // A patch of our own: it has passed its tests, the first of which is the length.
    let mut p: [u8; PATCH] = a.try_into().unwrap();
    if !turn(&mut p, list) || !same(&p, b) {
        return Err(Refusal::NotAccepted);
    }
    Ok(())
}
