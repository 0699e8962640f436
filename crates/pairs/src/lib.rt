// Two patches of which one is to be turned into the other: their tests; and whether bytes are the same.
#![tactic(auto)]

ghost use Rattle.std.specs.Prelude.{◌≡◌};
ghost use Rattle.answers.specs.Effect.{tested};
ghost use Rattle.answers.specs.Refusals.{told_test};
ghost use Rattle.pairs.specs.Pairs.{same_bytes, pair_rows};

use answers::Refusal;
use fields::NAME_SIZE;

// The bytes of a and b are the same, and as many.
pub fn same(a: &[u8], b: &[u8]) -> bool
    ensures { result ≡ same_bytes a.now b.now }
{
    a == b
}

// The test of both patches: 7, 11 and 12 of a, then of b; then 16 where their names differ.
pub fn test_pair(a: &[u8], b: &[u8]) -> Result<(), Refusal>
    ensures { told_test result ≡ tested (pair_rows a.now b.now) }
{
    patch::test(a)?;
    patch::test(b)?;
    if !same(&a[..NAME_SIZE], &b[..NAME_SIZE]) {
        return Err(Refusal::OtherName);
    }
    Ok(())
}
