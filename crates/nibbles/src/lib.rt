// Nibbles, packed bytes and the checksum, over any length: shared by every kind of dump.
#![tactic(auto)]

ghost use Rattle.std.specs.Prelude.{◌≡◌, ◌*◌, ◌/◌, ◌≤◌, true, ◌++◌, length, drop, position, nat_lt};
ghost use Rattle.std.proofs.Math.Option.{none};
ghost use Rattle.answers.specs.Effect.{Gives};
ghost use Rattle.answers.specs.Refusals.{told};
ghost use Rattle.ranges.specs.code.Found.{found_at};
ghost use Rattle.nibbles.specs.Nibbles.{nibbles, pack, sum, first_wide, packing, unpacking};

use answers::Refusal;

// The sum of packed bytes, modulo 128. A u8 wraps at 256, a multiple of 128.
pub fn checksum(packed: &[u8]) -> u8
    ensures { result ≡ sum packed.now }
{
    packed.iter().fold(0u8, |sum, b| sum.wrapping_add(*b)) % 128
}

// `true` only where no data byte is above 15: without a way out, so that sixteen bytes are seen at once.
fn none_wide(sent: &[u8]) -> bool
    ensures { result ≡ true → first_wide sent.now ≡ none }
{
    let mut narrow = true;
    for b in sent {
        if 15 < *b {
            narrow = false;
        }
    }
    narrow
}

// The same, and which is the first.
fn search_wide(sent: &[u8]) -> Option<usize>
    ensures { result ≡ position (λ b. nat_lt 15 b) sent.now }
{
    sent.iter().position(|b| 15 < *b)
}

// The first data byte above 15.
fn first_wide(sent: &[u8]) -> Option<usize>
    ensures { result ≡ found_at (first_wide sent.now) }
{
    if none_wide(sent) {
        return None;
    }
    search_wide(sent)
}

// Each byte as its remainder by 16, then its quotient by 16. The caller has seen that the nibbles fit.
fn put_nibbles(bytes: &[u8], out: &mut [u8])
    requires { 2 * length bytes.now ≤ length out.old }
    ensures { out.new ≡ nibbles bytes.now ++ drop (2 * length bytes.now) out.old }
{
    for (i, b) in bytes.iter().enumerate() {
        out[2 * i] = *b % 16;
        out[2 * i + 1] = *b / 16;
    }
}

// Nibbles of packed bytes at the start of a lent output, and how many these are: 13 where they do not fit.
pub fn unpack_into(bytes: &[u8], out: &mut [u8]) -> Result<usize, Refusal>
    ensures { Gives (unpacking bytes.now out.old) (told result) out.new }
{
    if out.len() / 2 < bytes.len() {
        return Err(Refusal::NoRoom);
    }
    put_nibbles(bytes, out);
    Ok(2 * bytes.len())
}

// Two nibbles to a byte. The caller has seen that none is above 15 and that the bytes fit.
fn put_packed(sent: &[u8], out: &mut [u8])
    requires { (first_wide sent.now ≡ none) × (length sent.now / 2 ≤ length out.old) }
    ensures { out.new ≡ pack sent.now ++ drop (length sent.now / 2) out.old }
{
    for i in 0..sent.len() / 2 {
        // A pair of nibbles as one word, so that eight are packed at once: its upper nibble comes down to the lower.
        let word = u16::from_le_bytes([sent[2 * i], sent[2 * i + 1]]);
        out[i] = ((word + word / 16) % 256) as u8;
    }
}

// Packed bytes of nibbles at the start of a lent output, and how many these are: 7 for an odd number of nibbles, 9 for a byte above 15, 13 where
// they do not fit.
pub fn pack_into(sent: &[u8], out: &mut [u8]) -> Result<usize, Refusal>
    ensures { Gives (packing sent.now out.old) (told result) out.new }
{
    if sent.len() % 2 == 1 {
        return Err(Refusal::WrongLength);
    }
    if let Some(index) = first_wide(sent) {
        return Err(Refusal::WideData(index));
    }
    if out.len() < sent.len() / 2 {
        return Err(Refusal::NoRoom);
    }
    put_packed(sent, out);
    Ok(sent.len() / 2)
}
