// Text written into a room from a place on, as far as it fits.
#![tactic(auto)]

ghost use Rattle.std.specs.Prelude.{◌≡◌, [], ◌∷◌, ◌++◌, ◌<◌};
ghost use Rattle.parts.specs.Decimal.{decimal};
ghost use Rattle.parts.specs.Hex.{glyph_of, hex_of};
ghost use Rattle.text.specs.Room.{placed, past};

// The room, and where the next byte goes.
#[derive(Drop)]
pub struct Page<'a> {
    pub room: &'a mut [u8],
    pub at: usize,
}

impl<'a> Page<'a> {
    fn put(&mut self, b: u8)
        ensures same_room { self.new.room.ghost_name ≡ self.old.room.ghost_name }
        ensures put { (self.new.at ≡ past self.old.room.now self.old.at (b ∷ [])) × (self.new.room.now ≡ placed self.old.room.now self.old.at (b ∷ [])) }
    {
        if self.at < self.room.len() {
            self.room[self.at] = b;
            self.at += 1;
        }
    }

    pub fn text(&mut self, bytes: &[u8])
        ensures same_room { self.new.room.ghost_name ≡ self.old.room.ghost_name }
        ensures put { (self.new.at ≡ past self.old.room.now self.old.at bytes.now) × (self.new.room.now ≡ placed self.old.room.now self.old.at bytes.now) }
    {
        for b in bytes {
            self.put(*b);
        }
    }

    fn digits(&mut self, n: u64)
        ensures same_room { self.new.room.ghost_name ≡ self.old.room.ghost_name }
        ensures put { (self.new.at ≡ past self.old.room.now self.old.at (decimal n)) × (self.new.room.now ≡ placed self.old.room.now self.old.at (decimal n)) }
    {
        if 10 <= n {
            self.digits(n / 10);
        }
        self.put(b'0' + (n % 10) as u8);
    }

    // A space and the number.
    pub fn number(&mut self, n: u64)
        ensures same_room { self.new.room.ghost_name ≡ self.old.room.ghost_name }
        ensures put { (self.new.at ≡ past self.old.room.now self.old.at (32 ∷ decimal n)) × (self.new.room.now ≡ placed self.old.room.now self.old.at (32 ∷ decimal n)) }
    {
        self.put(b' ');
        self.digits(n);
    }

    pub fn hex(&mut self, bytes: &[u8])
        ensures same_room { self.new.room.ghost_name ≡ self.old.room.ghost_name }
        ensures put { (self.new.at ≡ past self.old.room.now self.old.at (hex_of bytes.now)) × (self.new.room.now ≡ placed self.old.room.now self.old.at (hex_of bytes.now)) }
    {
        // A page of the loop's own: its place is written back once, and not at each digit.
        let mut page = Page {
            room: &mut *self.room,
            at: self.at,
        };
        for byte in bytes {
            page.put(glyph(*byte / 16));
            page.put(glyph(*byte % 16));
        }
        self.at = page.at;
    }

    pub fn end(&mut self)
        ensures same_room { self.new.room.ghost_name ≡ self.old.room.ghost_name }
        ensures put { (self.new.at ≡ past self.old.room.now self.old.at (10 ∷ [])) × (self.new.room.now ≡ placed self.old.room.now self.old.at (10 ∷ [])) }
    {
        self.put(b'\n');
    }

    pub fn line(&mut self, bytes: &[u8])
        ensures same_room { self.new.room.ghost_name ≡ self.old.room.ghost_name }
        ensures put { (self.new.at ≡ past self.old.room.now self.old.at (bytes.now ++ (10 ∷ []))) × (self.new.room.now ≡ placed self.old.room.now self.old.at (bytes.now ++ (10 ∷ []))) }
    {
        self.text(bytes);
        self.end();
    }
}

fn glyph(n: u8) -> u8
    requires { n < 16 }
    ensures { result ≡ glyph_of n }
{
    if n < 10 { b'0' + n } else { b'a' + (n - 10) }
}
