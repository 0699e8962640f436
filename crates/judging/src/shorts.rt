// A short message by its description: its bytes behind the opcode, and their tests.
ghost use Rattle.std.specs.Prelude.{◌≡◌, T, drop};
ghost use Rattle.answers.specs.Effect.{tested};
ghost use Rattle.answers.specs.Refusals.{told_test};
ghost use Rattle.answers.specs.Table.{four};
ghost use Rattle.streams.specs.Bytes.{framed};
ghost use Rattle.messages.specs.declared.kinds.Kind.TheVariants.{Short as of_short};
ghost use Rattle.messages.specs.code.Sizes.{sized};
ghost use Rattle.messages.specs.declared.kinds.Operands.TheVariants.{Operation as an_operation};
ghost use Rattle.messages.specs.Judge.{operand_rows, lent_operand_rows};
ghost use Rattle.judging.specs.code.Counted.{content_of};
ghost use Rattle.judging.specs.code.Judged.{kind_verdict, judged, told_judged};

use crate::Accepted;
use crate::content::{Content, NUMBER};
use answers::Refusal;
use edits::{Matrix, Remote};
use fields::Parameter;
use messages::kinds::{Operands, Short};
use operations::Operation;

// The test of an operation's bytes: 8 where it may not have them.
fn test_operation(operation: Operation, bytes: &[u8]) -> Result<(), Refusal>
    ensures { told_test result ≡ tested (operand_rows (an_operation operation) bytes.now) }
{
    if operations::allowed(operation, bytes) {
        Ok(())
    } else {
        Err(Refusal::NotAllowed)
    }
}

// The tests of a short message's bytes: 7 for another count of them, then those that applying an edit makes too, or an operation's.
pub fn test_operands(operands: Operands, bytes: &[u8]) -> Result<(), Refusal>
    ensures { told_test result ≡ tested (lent_operand_rows operands bytes.now) }
{
    if bytes.len() != operands.count() {
        return Err(Refusal::WrongLength);
    }
    match operands {
        Operands::Edit => Remote {
            parameter: Parameter(bytes[0]),
            value: bytes[1],
        }
        .test(),
        Operands::BusEdit => Matrix {
            bus: bytes[0],
            source: bytes[1],
            amount: bytes[2],
            destination: bytes[3],
        }
        .test(),
        Operands::Operation(operation) => test_operation(operation, bytes),
    }
}

// The first four bytes behind the opcode, zero behind the last.
fn first_four(content: Content) -> [u8; 4]
    ensures { result ≡ four (drop 3 (content_of content.entry)) }
{
    [
        content.get(NUMBER).unwrap_or(0),
        content.get(NUMBER + 1).unwrap_or(0),
        content.get(NUMBER + 2).unwrap_or(0),
        content.get(NUMBER + 3).unwrap_or(0),
    ]
}

// A short message: 7, then the tests of its bytes. The caller has the kind from its opcode.
pub(crate) fn judge_short(kind: Short, content: Content) -> Result<Accepted, Refusal>
    requires { T (sized (of_short kind)) }
    ensures { told_judged result ≡ judged (kind_verdict (of_short kind) (framed (content_of content.entry))) }
{
    if content.len() + 2 != kind.length {
        return Err(Refusal::WrongLength);
    }
    let bytes = first_four(content);
    test_operands(kind.operands, &bytes[..content.len() - NUMBER])?;
    Ok(Accepted {
        opcode: kind.opcode,
        bytes,
    })
}
