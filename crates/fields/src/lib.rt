// The 134 bytes of a patch as document 01 lists them: byte place, parameter number, least and greatest value, and the lookups over them.
#![tactic(auto)]

pub mod columns;
mod rows;

ghost use Rattle.std.specs.Prelude.{◌≡◌};
ghost use Rattle.fields.specs.Fields.{least_at, greatest_at, in_range, value_at, place_of, parameter_of};
ghost use Rattle.fields.specs.Parameters.{ranging};
ghost use Rattle.fields.specs.code.Lookups.{row_at, found_place, found_parameter, told_range};

use crate::columns::{LEAST, WIDTH};
pub use crate::rows::FIELDS;
use crate::rows::{NONE, PLACE_OF, R0, R26, R104, R105, R106};
use answers::{Outcome, Refusal};

// A row: a byte place, its parameter number, its least and its greatest value. Values are bytes as stored: a least value above the
// greatest is that of a signed field, 0xC0 for -64, 0xE0 for -32.
#[derive(Clone, Copy, Debug, PartialEq, Eq)]
pub struct Field(pub u8, pub u8, pub u8, pub u8);

// How many bytes a patch has, each with its place.
pub const PLACES: usize = 134;

// The name's bytes come first.
pub const NAME_SIZE: usize = 8;

// The row of its first byte: all eight have the same range.
pub const NAME: Field = R0;

// The buses come last, three bytes each.
pub const BUSES: usize = 10;

// The rows of bus 0, source, amount and destination: every bus has the same ranges.
pub const BUS: [[u8; 4]; 3] = [
    [R104.0, R104.1, R104.2, R104.3],
    [R105.0, R105.1, R105.2, R105.3],
    [R106.0, R106.1, R106.2, R106.3],
];

// The one parameter whose value is stored as it is.
pub const NOT_EXTENDED: u8 = R26.1;

// Where bus 0 has them; those of the next bus stand three places on.
pub const SOURCE_AT: usize = R104.0 as usize;

pub const AMOUNT_AT: usize = R105.0 as usize;

pub const DESTINATION_AT: usize = R106.0 as usize;

// The listing's first column: which of the 134 bytes.
#[derive(Clone, Copy, Debug, PartialEq, Eq)]
pub struct BytePlace(pub u8);

// The listing's second column: the number that a remote edit names.
#[derive(Clone, Copy, Debug, PartialEq, Eq)]
pub struct Parameter(pub u8);

// The row of a place; past the table its numbers are 0. Beside `ranges::row_of`: a place is a byte here and a row a struct, as 01 has them,
// and `ranges` tests by any table of four numbers.
fn row_of(place: BytePlace) -> Field
    ensures { result ≡ row_at place.0 }
{
    FIELDS
        .get(place.0 as usize)
        .copied()
        .unwrap_or(Field(0, 0, 0, 0))
}

// The least value of a place, as a byte; 0 past the table. These lookups are functions, as 01 has `place_of` and `parameter_of`.
pub fn least_of(place: BytePlace) -> u8
    ensures { result ≡ least_at place.0 }
{
    row_of(place).2
}

// The greatest value of a place, as a byte; 0 past the table.
pub fn greatest_of(place: BytePlace) -> u8
    ensures { result ≡ greatest_at place.0 }
{
    row_of(place).3
}

// The place of a parameter.
pub fn place_of(parameter: Parameter) -> Option<BytePlace>
    ensures { result ≡ found_place (place_of parameter.0) }
{
    let place = *PLACE_OF.get(parameter.0 as usize)?;
    if place == NONE {
        return None;
    }
    Some(BytePlace(place))
}

// The parameter of a place.
pub fn parameter_of(place: BytePlace) -> Option<Parameter>
    ensures { result ≡ found_parameter (parameter_of place.0) }
{
    let Field(_, parameter, _, _) = *FIELDS.get(place.0 as usize)?;
    if parameter == NONE {
        return None;
    }
    Some(Parameter(parameter))
}

// A byte lies in the range of its field: it is no further above the least value than the greatest is. Past the table both are 0.
pub fn in_range(place: BytePlace, b: u8) -> bool
    ensures { result ≡ in_range place.0 b }
{
    let k = place.0 as usize;
    if PLACES <= k {
        return b == 0;
    }
    b.wrapping_sub(LEAST[k]) <= WIDTH[k]
}

// The value of a byte at a place. A field is signed where its least value is above its greatest.
pub fn value_at(place: BytePlace, b: u8) -> i16
    ensures { result ≡ value_at place.0 b }
{
    let Field(_, _, least, greatest) = row_of(place);
    ranges::value_by(greatest < least, b)
}

// The least and the greatest value of a parameter, with their signs.
#[derive(Clone, Copy, Debug, PartialEq, Eq)]
pub struct Bounds {
    pub least: i16,
    pub greatest: i16,
}

// What C is told of them: an outcome, and the least and greatest value; both 0 when refused.
#[repr(C)]
#[derive(Clone, Copy, Debug, PartialEq, Eq)]
pub struct Range {
    pub outcome: Outcome,
    pub least: i16,
    pub greatest: i16,
}

impl From<Result<Bounds, Refusal>> for Range {
    ghost from_gives = { λ r range. range ≡ told_range r };

    fn from(answer: Result<Bounds, Refusal>) -> Range {
        match answer {
            Ok(bounds) => Range {
                outcome: answers::done(0),
                least: bounds.least,
                greatest: bounds.greatest,
            },
            Err(refusal) => Range {
                outcome: refusal.into(),
                least: 0,
                greatest: 0,
            },
        }
    }
}

// The bounds of a parameter: 8 for a number that is no parameter's.
pub fn range_of(parameter: Parameter) -> Result<Bounds, Refusal>
    ensures { told_range result ≡ ranging parameter.0 }
{
    let place = place_of(parameter).ok_or(Refusal::NotAllowed)?;
    let Field(_, _, least, greatest) = row_of(place);
    Ok(Bounds {
        least: value_at(place, least),
        greatest: value_at(place, greatest),
    })
}
