// The tests of a patch: 7, then 11 with the lowest place and the value found there, then 12 with the lowest bus; and the value of a
// parameter in one.
#![tactic(auto)]

ghost use Rattle.std.specs.Prelude.{◌≡◌, true};
ghost use Rattle.std.proofs.Math.Option.{none};
ghost use Rattle.answers.specs.Effect.{tested};
ghost use Rattle.answers.specs.Refusals.{told_test};
ghost use Rattle.ranges.specs.code.Found.{found_at, found_in};
ghost use Rattle.patch.specs.Patch.{first_out, first_half, half_used, field_rows, patch_rows, holding};
ghost use Rattle.patch.specs.code.Held.{told_held};

use answers::{Found, Outcome, Refusal};
use fields::{BUSES, BytePlace, DESTINATION_AT, PLACES, Parameter, SOURCE_AT};

// How many bytes a patch has.
pub const SIZE: usize = PLACES;

// One of source and destination is zero and the other not.
pub fn half_used(source: u8, destination: u8) -> bool
    ensures { result ≡ half_used source destination }
{
    (source == 0) != (destination == 0)
}

// `true` only where every byte lies in the range of its field: without a way out, so that sixteen are seen at once. The last sixteen begin
// before the others end, so that they are sixteen too.
fn all_in_range(p: &[u8; SIZE]) -> bool
    ensures { result ≡ true → first_out p.now ≡ none }
{
    let mut out = false;
    for k in 0..SIZE / 16 * 16 {
        if !fields::in_range(BytePlace(k as u8), p[k]) {
            out = true;
        }
    }
    for k in SIZE - 16..SIZE {
        if !fields::in_range(BytePlace(k as u8), p[k]) {
            out = true;
        }
    }
    !out
}

// The lowest place out of range and the value found there.
fn first_out(p: &[u8; SIZE]) -> Option<Found>
    ensures { result ≡ found_in (first_out p.now) }
{
    if all_in_range(p) {
        return None;
    }
    for k in 0..SIZE {
        let place = BytePlace(k as u8);
        if !fields::in_range(place, p[k]) {
            return Some(Found {
                place: k,
                value: fields::value_at(place, p[k]),
            });
        }
    }
    None
}

// `true` only where no bus is half used. Each of 28 bytes is seen with the second behind it, many at once: every third is a source,
// with its destination. Without a branch, so that the compiler makes vector code of it.
fn buses_whole(p: &[u8; SIZE]) -> bool
    ensures { result ≡ true → first_half p.now ≡ none }
{
    let mut half = false;
    for j in 0..3 * BUSES - 2 {
        half |= half_used(p[SOURCE_AT + j], p[DESTINATION_AT + j]) & (j % 3 == 0);
    }
    !half
}

// The lowest bus half used.
fn first_half(p: &[u8; SIZE]) -> Option<usize>
    ensures { result ≡ found_at (first_half p.now) }
{
    if buses_whole(p) {
        return None;
    }
    for bus in 0..BUSES {
        if half_used(p[SOURCE_AT + 3 * bus], p[DESTINATION_AT + 3 * bus]) {
            return Some(bus);
        }
    }
    None
}

// The fields of a patch: 11, then 12.
fn test_fields(p: &[u8; SIZE]) -> Result<(), Refusal>
    ensures { told_test result ≡ tested (field_rows p.now) }
{
    if let Some(found) = first_out(p) {
        return Err(Refusal::OutOfRange(found));
    }
    if let Some(bus) = first_half(p) {
        return Err(Refusal::HalfUsed(bus));
    }
    Ok(())
}

// The test of a lent patch: 7, then 11 with the lowest place and the value found there, then 12 with the lowest bus.
pub fn test(p: &[u8]) -> Result<(), Refusal>
    ensures { told_test result ≡ tested (patch_rows p.now) }
{
    match <&[u8; SIZE]>::try_from(p) {
        Ok(patch) => test_fields(patch),
        Err(_) => Err(Refusal::WrongLength),
    }
}

// What C is told that a parameter has in a patch: an outcome, and the value; 0 when refused.
#[repr(C)]
#[derive(Clone, Copy, Debug, PartialEq, Eq)]
pub struct Held {
    pub outcome: Outcome,
    pub value: i16,
}

impl From<Result<i16, Refusal>> for Held {
    ghost from_gives = { λ r held. held ≡ told_held r };

    fn from(answer: Result<i16, Refusal>) -> Held {
        match answer {
            Ok(value) => Held {
                outcome: answers::done(0),
                value,
            },
            Err(refusal) => Held {
                outcome: refusal.into(),
                value: 0,
            },
        }
    }
}

// The value of a parameter in a lent patch, with its sign: 8 for a number that is no parameter's, then the patch's 7, 11 and 12.
pub fn value_of(p: &[u8], parameter: Parameter) -> Result<i16, Refusal>
    ensures { told_held result ≡ holding parameter.0 p.now }
{
    let place = fields::place_of(parameter).ok_or(Refusal::NotAllowed)?;
    test(p)?;
    let at = place.0 as usize;
    Ok(fields::value_at(place, p[at]))
}
