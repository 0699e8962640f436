// The 18 bytes of a split as source document 003 lists them in its Appendix D: byte place, parameter number, least and greatest value; and
// their test.
#![tactic(auto)]

ghost use Rattle.std.specs.Prelude.{◌≡◌};
ghost use Rattle.answers.specs.Effect.{tested};
ghost use Rattle.answers.specs.Refusals.{told_test};
ghost use Rattle.splits.specs.Splits.{split_rows};

use answers::Refusal;

// How many bytes a split has.
pub const SIZE: usize = 18;

// Stands where a place has no parameter. A byte and no `Option`: so the rows of the definition have it.
const NONE: u8 = 255;

// A row for each byte: its place, its parameter number, its least and its greatest value. Values are bytes as stored: a least value above
// the greatest is that of a signed field, 0xE0 for -32.
static FIELDS: [[u8; 4]; SIZE] = [
    // The name.
    [0, NONE, 0, 63],
    [1, NONE, 0, 63],
    [2, NONE, 0, 63],
    [3, NONE, 0, 63],
    [4, NONE, 0, 63],
    [5, NONE, 0, 63],
    // Not used.
    [6, NONE, 0, 63],
    [7, NONE, 0, 63],
    // The numbers of the lower and the upper patch.
    [8, NONE, 0, 127],
    [9, NONE, 0, 127],
    // The left zone: limit, transpose, MIDI out.
    [10, 0, 0, 127],
    [11, 1, 0xE0, 0x1F],
    [12, 2, 0, 1],
    // The right zone.
    [13, 3, 0, 127],
    [14, 4, 0xE0, 0x1F],
    [15, 5, 0, 1],
    // The balance, and the voice configuration.
    [16, 6, 0xE0, 0x1F],
    [17, 7, 0, 3],
];

// The test of a split by its rows.
fn test_rows(p: &[u8]) -> Result<(), Refusal>
    ensures { told_test result ≡ tested (split_rows p.now) }
{
    ranges::test(SIZE, Some(&FIELDS), p)
}

// The test of a split: 7 for another count of bytes than 18, then 11 with the lowest place out of range and the value found there. Most pass,
// and one pass over them is all that they cost.
pub fn test(p: &[u8]) -> Result<(), Refusal>
    ensures { told_test result ≡ tested (split_rows p.now) }
{
    if ranges::all_in(SIZE, &FIELDS, p) {
        return Ok(());
    }
    test_rows(p)
}
