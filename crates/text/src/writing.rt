// Text that is put together byte after byte, at the front of a slice, as far as there is room.
#![tactic(auto, using(crate::specs::Laws::Writer::writing))]

ghost use Rattle.std.specs.Prelude.{◌≡◌, [], ◌∷◌, ◌++◌, take};
ghost use Rattle.text.specs.Text.{decimal, field};

const BLANK: u8 = b' ';

// A text, and the place where its next byte goes.
#[derive(Drop)]
pub struct Writer<'a> {
    pub text: &'a mut [u8],
    pub at: usize,
}

impl<'a> Writer<'a> {
    ghost use Rattle.text.specs.Writing.{Puts};

    // Starts at the front of a text.
    pub fn new(text: &'a mut [u8]) -> Writer<'a>
        ensures same_reference { result.text.ghost_name ≡ text.entry.ghost_name }
        ensures text { result.text.now ≡ text.old }
        ensures front { result.at ≡ 0 }
    {
        Writer { text, at: 0 }
    }

    // Returns what was put so far.
    pub fn written(&self) -> &[u8]
        ensures { result.now ≡ take self.now.at self.now.text.now }
    {
        &self.text[..self.at.min(self.text.len())]
    }

    // Puts a byte, if there is room.
    #[tactic(auto, unfolding(crate::specs::Writing::Added))]
    pub fn put(&mut self, byte: u8)
        ensures { Puts self.old self.new (byte ∷ []) }
    {
        if self.at < self.text.len() {
            self.text[self.at] = byte;
            self.at += 1;
        }
    }

    // Puts the bytes of a word.
    pub fn put_word(&mut self, word: &[u8])
        ensures { Puts self.old self.new word.now }
    {
        for byte in word {
            self.put(*byte);
        }
    }

    // Puts the decimal digits of a number.
    #[tactic(auto, using(crate::specs::Laws::Decimal::digits_decimal))]
    pub fn put_number(&mut self, n: u64)
        ensures { Puts self.old self.new (decimal n) }
    {
        let mut digits = [0u8; 20];
        let k = io::decimal(n, &mut digits);
        self.put_word(&digits[..k]);
    }

    // Puts a blank and a number.
    pub fn put_field(&mut self, n: u64)
        ensures { Puts self.old self.new (field n) }
    {
        self.put(BLANK);
        self.put_number(n);
    }

    // Puts a word, and a blank and a number after it.
    pub fn put_named(&mut self, word: &[u8], n: u64)
        ensures { Puts self.old self.new (word.now ++ field n) }
    {
        self.put_word(word);
        self.put_field(n);
    }
}
