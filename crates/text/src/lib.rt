// Text in ASCII, put into lent room: bytes, numbers in decimal with and without a sign. Each routine puts as many bytes as there is room for behind
// what stands there already, and keeps the room's other bytes. So routines called one behind the other put their texts joined.
#![tactic(auto)]

pub mod input;

ghost use Rattle.std.specs.Prelude.{◌≡◌, ◌-◌, [], ◌∷◌, ◌++◌, length, take};
ghost use Rattle.text.specs.Text.{followed, signed, spaced, Gains};

// A text in lent room, which stands before place `end`.
#[derive(Drop)]
pub struct Text<'a> {
    room: &'a mut [u8],
    end: usize,
}

impl<'a> Text<'a> {
    // The text that stands before place `end` of a room.
    pub fn new(room: &'a mut [u8], end: usize) -> Text<'a>
        ensures room { result.room.ghost_name ≡ room.entry.ghost_name }
        ensures bytes { result.room.now ≡ room.entry.now }
        ensures end { result.end ≡ end }
    {
        Text { room, end }
    }

    // The place behind the text.
    pub fn end(&self) -> usize
        ensures { result ≡ self.now.end }
    {
        self.end
    }

    // Its bytes. Where it was begun past the room, all of the room's.
    pub fn as_bytes(&self) -> &[u8]
        ensures { result.now ≡ take self.now.end self.now.room.now }
    {
        &self.room[..self.end.min(self.room.len())]
    }

    // How many bytes there is room for behind it.
    pub fn space(&self) -> usize
        ensures { result ≡ length self.now.room.now - self.now.end }
    {
        self.room.len().saturating_sub(self.end)
    }

    // Empties it: what is put next stands at the room's start.
    pub fn clear(&mut self)
        ensures { (self.new.room ≡ self.old.room) × (self.new.end ≡ 0) }
    {
        self.end = 0;
    }

    // A byte.
    pub fn put_byte(&mut self, b: u8)
        ensures { Gains (b ∷ []) self.old self.new }
    {
        if self.end < self.room.len() {
            self.room[self.end] = b;
            self.end += 1;
        }
    }

    // Bytes.
    pub fn put(&mut self, bytes: &[u8])
        ensures { Gains bytes.now self.old self.new }
    {
        for b in bytes {
            self.put_byte(*b);
        }
    }

    // What std writes of a number, and the byte behind it.
    fn put_integer<I: itoa::Integer>(&mut self, n: I, behind: u8)
        ensures { Gains (I.text n ++ (behind ∷ [])) self.old self.new }
    {
        let mut digits = itoa::Buffer::new();
        self.put(digits.format(n).as_bytes());
        self.put_byte(behind);
    }

    // A number in decimal, and the byte behind it.
    pub fn put_number(&mut self, n: usize, behind: u8)
        ensures { Gains (followed n behind) self.old self.new }
    {
        self.put_integer(n, behind);
    }

    // A number with its sign in decimal, and the byte behind it.
    pub fn put_signed(&mut self, n: isize, behind: u8)
        ensures { Gains (signed n behind) self.old self.new }
    {
        self.put_integer(n, behind);
    }

    // Numbers, a space behind each.
    pub fn put_spaced(&mut self, numbers: &[usize])
        ensures { Gains (spaced numbers.now) self.old self.new }
    {
        for n in numbers {
            self.put_number(*n, b' ');
        }
    }
}
