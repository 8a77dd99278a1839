// Text that is written into a buffer, each piece after the one before.
#![tactic(auto)]

ghost use Rattle.std.specs.Prelude.{◌≡◌, [], ◌∷◌, ◌++◌, ◌+◌, ◌^◌, ◌≤◌, ◌<◌, length};
ghost use Rattle.operations.specs.Text.{decimal, signed_decimal, spaces, right_set, left_set};
ghost use Rattle.text.specs.Put.{Put, Pushed};

// A buffer and the index past the text in it. What has no room in the buffer is left out, and counts.
#[derive(Drop)]
pub struct Text<'a> {
    pub out: &'a mut [u8],
    pub end: usize,
}

impl<'a> Text<'a> {
    // No text yet.
    pub fn new(out: &'a mut [u8]) -> Text<'a>
        ensures same { result.out.ghost_name ≡ out.entry.ghost_name }
        ensures value { (result.out.now ≡ out.old) × (result.end ≡ 0) }
    {
        Text { out, end: 0 }
    }

    pub fn push_byte(&mut self, byte: u8)
        requires { self.old.end < 2 ^ 63 }
        ensures { Pushed self.old (byte ∷ []) self.new }
    {
        if self.end < self.out.len() {
            self.out[self.end] = byte;
        }
        self.end += 1;
    }

    pub fn push_bytes(&mut self, bytes: &[u8])
        requires { self.old.end + length bytes.now < 2 ^ 63 }
        ensures { Pushed self.old bytes.now self.new }
    {
        for &byte in bytes {
            self.push_byte(byte);
        }
    }

    // The decimal digits of n.
    pub fn push_decimal(&mut self, n: u64)
        requires { self.old.end < 2 ^ 32 }
        ensures { Pushed self.old (decimal n) self.new }
    {
        if 10 <= n {
            self.push_decimal(n / 10);
        }
        self.push_byte(b'0' + (n % 10) as u8);
    }

    // The decimal digits of n, and a byte after them.
    pub fn push_number(&mut self, n: u64, after: u8)
        requires { (self.old.end < 2 ^ 31) × (n < 10 ^ 9) }
        ensures pushed { Pushed self.old (decimal n ++ (after ∷ [])) self.new }
        ensures upper_bound { self.new.end ≤ self.old.end + 10 }
    {
        self.push_decimal(n);
        self.push_byte(after);
    }

    // The decimal digits of a number, with a sign before a negative one.
    pub fn push_signed(&mut self, n: i64)
        requires { self.old.end < 2 ^ 31 }
        ensures pushed { Pushed self.old (signed_decimal n) self.new }
        ensures upper_bound { self.new.end ≤ self.old.end + 20 }
    {
        if n < 0 {
            self.push_byte(b'-');
        }
        self.push_decimal(n.unsigned_abs());
    }

    fn push_spaces(&mut self, count: usize)
        requires { self.old.end + count < 2 ^ 63 }
        ensures { Pushed self.old (spaces count) self.new }
    {
        for _i in 0..count {
            self.push_byte(b' ');
        }
    }

    // A text at the start of so many columns.
    pub fn push_left_set(&mut self, width: usize, text: &[u8])
        requires { (self.old.end + width < 2 ^ 63) × (length text.now ≤ width) }
        ensures pushed { Pushed self.old (left_set width text.now) self.new }
        ensures end { self.new.end ≡ self.old.end + width }
    {
        self.push_bytes(text);
        self.push_spaces(width - text.len());
    }

    // A number at the end of so many columns.
    pub fn push_right_set(&mut self, width: usize, n: i64)
        requires { (self.old.end < 2 ^ 31) × (width < 2 ^ 31) × (length (signed_decimal n) ≤ width) }
        ensures pushed { Pushed self.old (right_set width (signed_decimal n)) self.new }
        ensures end { self.new.end ≡ self.old.end + width }
    {
        let mut digits = [0u8; 20];
        let count = put_signed(&mut digits, n);
        self.push_spaces(width - count);
        self.push_bytes(&digits[..count]);
    }
}

// Stores the decimal digits of a number, with their sign, and answers how many bytes they take.
fn put_signed(out: &mut [u8], n: i64) -> usize
    ensures put { Put out.old 0 (signed_decimal n) result out.new }
    ensures upper_bound { result ≤ 20 }
{
    let mut text = Text::new(out);
    text.push_signed(n);
    text.end
}
