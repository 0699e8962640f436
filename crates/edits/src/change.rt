// What an edit stores.

ghost use Rattle.std.specs.Prelude.{◌≡◌, ◌+◌, ◌≤◌, [], ◌∷◌, length};
ghost use Rattle.std.proofs.Math.Seq.{sets};
ghost use Rattle.answers.specs.Table.{done, first};
ghost use Rattle.answers.specs.Effect.{Gives, changed};
ghost use Rattle.answers.specs.Refusals.{told_test};
ghost use Rattle.patch.specs.Patch.{length_row, patch_rows};
ghost use Rattle.edits.specs.code.Storing.{Stored};

use answers::Refusal;
use fields::PLACES;

// Bytes that stand side by side in a patch, and the place of the first.
#[derive(Clone, Copy)]
pub struct Change<const N: usize> {
    pub at: usize,
    pub bytes: [u8; N],
    pub ghost within: { at + N ≤ 134 },
}

impl<const N: usize> Change<N> {
    // Stores them. The callers have seen that the patch has 134 bytes.
    pub fn put(self, p: &mut [u8])
        requires { length p.old ≡ 134 }
        ensures { p.new ≡ sets p.old self.entry.at self.entry.bytes }
    {
        p[self.at..self.at + N].copy_from_slice(&self.bytes);
    }

    // Stores them, if the patch passes its own tests: 7, 11 and 12.
    pub fn apply(self, p: &mut [u8]) -> Result<(), Refusal>
        ensures { Gives (changed 0 (sets p.old self.entry.at self.entry.bytes) p.old (first (patch_rows p.old) (done 0 [] [])))
            (told_test result) p.new }
    {
        patch::test(p)?;
        self.put(p);
        Ok(())
    }

    // Stores them, if the patch has 134 bytes, whose fields are known to pass.
    pub fn store(self, p: &mut [u8]) -> bool
        ensures { Stored (changed 0 (sets p.old self.entry.at self.entry.bytes) p.old (first (length_row p.old ∷ []) (done 0 [] []))) result p.new }
    {
        if p.len() != PLACES {
            return false;
        }
        self.put(p);
        true
    }
}
