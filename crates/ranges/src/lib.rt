// Ranges of bytes, and the test of bytes by a table of them.
#![tactic(auto)]

ghost use Rattle.std.specs.Prelude.{◌≡◌, slice_index};
ghost use Rattle.answers.specs.Effect.{tested};
ghost use Rattle.answers.specs.Refusals.{told_test};
ghost use Rattle.ranges.specs.Values.{value_of, value_by};
ghost use Rattle.ranges.specs.Ranges.{least_in, greatest_in, between, in_row, value_in, out_from, counted_rows};
ghost use Rattle.ranges.specs.code.Found.{found_in, table_in};
ghost use Rattle.ranges.specs.code.Passes.{all_in};

use answers::{Found, Refusal};

// A byte in two's complement.
fn with_sign(b: u8) -> i16
    ensures { result ≡ value_of b }
{
    i16::from(b.cast_signed())
}

// The value of a field's byte: with its sign where the field is signed.
pub fn value_by(signed: bool, b: u8) -> i16
    ensures { result ≡ value_by signed b }
{
    if signed {
        return with_sign(b);
    }
    i16::from(b)
}

// A byte lies between two bounds; where the least is above the greatest, the range goes on from 255 to 0. So the byte is no further above
// the least than the greatest is.
fn lies_between(least: u8, greatest: u8, b: u8) -> bool
    ensures { result ≡ between least greatest b }
{
    b.wrapping_sub(least) <= greatest.wrapping_sub(least)
}

// The row of a place: place, parameter, least and greatest value; past the table four zeros.
fn row_of(table: &[[u8; 4]], place: usize) -> [u8; 4]
    ensures { (slice_index result 2 ≡ least_in table.now place) × (slice_index result 3 ≡ greatest_in table.now place) }
{
    table.get(place).copied().unwrap_or([0; 4])
}

// A byte lies in the range of its row.
fn in_row(table: &[[u8; 4]], place: usize, b: u8) -> bool
    ensures { result ≡ in_row table.now place b }
{
    let row = row_of(table, place);
    lies_between(row[2], row[3], b)
}

// The value of a byte at a place, by its row.
fn value_in(table: &[[u8; 4]], place: usize, b: u8) -> i16
    ensures { result ≡ value_in table.now place b }
{
    let row = row_of(table, place);
    value_by(row[3] < row[2], b)
}

// So many bytes, each in the range of its row: without a way out, so that they are seen at once.
pub fn all_in(count: usize, table: &[[u8; 4]], bytes: &[u8]) -> bool
    ensures { result ≡ all_in count table.now bytes.now }
{
    if bytes.len() != count {
        return false;
    }
    let mut all = true;
    for (k, b) in bytes.iter().enumerate() {
        if !in_row(table, k, *b) {
            all = false;
        }
    }
    all
}

// The lowest place out of range and the value found there, as `in_row` tests each byte.
pub fn first_out(table: &[[u8; 4]], bytes: &[u8]) -> Option<Found>
    ensures { result ≡ found_in (out_from table.now 0 bytes.now) }
{
    for (k, b) in bytes.iter().enumerate() {
        if !in_row(table, k, *b) {
            return Some(Found {
                place: k,
                value: value_in(table, k, *b),
            });
        }
    }
    None
}

// The test of so many bytes by the table of their ranges, where they have one with rows: 7 for another count of them, then 11 with the lowest
// place out of range and the value found there.
pub fn test(count: usize, table: Option<&[[u8; 4]]>, bytes: &[u8]) -> Result<(), Refusal>
    ensures { told_test result ≡ tested (counted_rows count (table_in table.entry) bytes.now) }
{
    // The search is begun before the count is told, so that it stays a loop, apart from a pass over the same bytes before it.
    let out = match table {
        Some(rows) if !rows.is_empty() => first_out(rows, bytes),
        _ => None,
    };
    if bytes.len() != count {
        return Err(Refusal::WrongLength);
    }
    match out {
        Some(found) => Err(Refusal::OutOfRange(found)),
        None => Ok(()),
    }
}
