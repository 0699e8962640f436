// A patch's name: its bytes 0-7, shown and set as eight characters of 32..95.
#![tactic(auto)]

ghost use Rattle.std.specs.Prelude.{◌≡◌};
ghost use Rattle.answers.specs.Effect.{Gives};
ghost use Rattle.answers.specs.Refusals.{told, told_test};
ghost use Rattle.names.specs.Names.{shown, stored, any_outside, naming, showing};

use answers::Refusal;
use fields::NAME_SIZE;

// A stored byte as its character. A patch that passed its tests has bytes of 0..63 here.
#[tactic(auto, unfolding(crate::specs::Names::shown))]
fn character(b: u8) -> u8
    ensures { result ≡ shown b }
{
    if b < 32 { b + 64 } else { b }
}

// A character as its stored byte.
#[tactic(auto, unfolding(crate::specs::Names::stored))]
fn stored_byte(t: u8) -> u8
    ensures { result ≡ stored t }
{
    if t < 64 { t } else { t - 64 }
}

// Some character of a text lies outside 32..95.
fn any_outside(text: &[u8]) -> bool
    ensures { result ≡ any_outside text.now }
{
    text.iter().any(|t| !(32..=95).contains(t))
}

// Sets the name of a lent patch: 7 for a patch that is not 134 bytes or a text that is not 8 characters, 8 for a character
// outside 32..95, then the patch's own 11 and 12. Refused, the patch keeps every byte.
pub fn set_name(p: &mut [u8], text: &[u8]) -> Result<(), Refusal>
    ensures { Gives (naming p.old text.now) (told_test result) p.new }
{
    if p.len() != patch::SIZE {
        return Err(Refusal::WrongLength);
    }
    let name: &[u8; NAME_SIZE] = text.try_into().map_err(|_| Refusal::WrongLength)?;
    if any_outside(text) {
        return Err(Refusal::NotAllowed);
    }
    patch::test(p)?;
    p[..NAME_SIZE].copy_from_slice(&name.map(stored_byte));
    Ok(())
}

// Writes the eight characters of a patch's name to the start of a lent output: 7, 11 and 12 by the patch, then 13 for an output
// shorter than 8. Tells that it wrote 8; the bytes behind them keep their values.
pub fn show_name(p: &[u8], out: &mut [u8]) -> Result<usize, Refusal>
    ensures { Gives (showing p.now out.old) (told result) out.new }
{
    let name = p.first_chunk::<NAME_SIZE>().ok_or(Refusal::WrongLength)?;
    patch::test(p)?;
    let room = out.first_chunk_mut::<NAME_SIZE>().ok_or(Refusal::NoRoom)?;
    *room = name.map(character);
    Ok(NAME_SIZE)
}
