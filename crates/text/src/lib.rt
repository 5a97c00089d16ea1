// Text gathered in a list, behind what is put there already. What has no room there is left out.
#![tactic(auto)]

ghost use Rattle.std.specs.Prelude.{[], ◌∷◌};
ghost use Rattle.text.specs.Text.{number};
ghost use Rattle.text.specs.Line.{Adds};

// A list of bytes, of which the first `end` are put.
#[derive(Drop)]
pub struct Line<'a> {
    pub bytes: &'a mut [u8],
    pub end: usize,
}

impl Line<'_> {
    // Puts a byte.
    pub fn put_byte(&mut self, byte: u8)
        ensures { Adds (byte ∷ []) self.old self.new }
    {
        if self.end < self.bytes.len() {
            self.bytes[self.end] = byte;
            self.end += 1;
        }
    }

    // Puts a text, byte by byte.
    pub fn put_text(&mut self, text: &[u8])
        ensures { Adds text.now self.old self.new }
    {
        for &byte in text {
            self.put_byte(byte);
        }
    }

    // Puts a blank and the number in decimal.
    pub fn put_number(&mut self, n: u64)
        ensures { Adds (number n) self.old self.new }
    {
        let mut digits = [0u8; 20];
        let k = io::decimal(n, &mut digits);
        self.put_byte(b' ');
        self.put_text(&digits[..k]);
    }
}
