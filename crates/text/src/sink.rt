// Writing into a space that may be too short: every byte is counted, and those for which there is room are written.
ghost use Rattle.std.specs.Prelude.{◌≡◌, List, ℕ, [], ◌∷◌, map};
ghost use Rattle.std.specs.Fmt.{decimal};
ghost use Rattle.text.specs.Writing.{with_text, line_of};

// A space, and how many bytes have come for it so far. Those for which there was room are in it, if it began with none. The count stops at
// the greatest number.
#[derive(Drop)]
pub struct Sink<'a> {
    pub out: &'a mut [u8],
    pub len: usize,
}

impl Sink<'_> {
    #[tactic(auto, unfolding(crate::specs::Writing::with_text))]
    pub fn byte(&mut self, byte: u8)
        ensures { self.new ≡ with_text (byte ∷ []) self.old }
    {
        if self.len < self.out.len() {
            self.out[self.len] = byte;
        }
        self.len = self.len.saturating_add(1);
    }

    #[tactic(auto, using(crate::proofs::Putting::bytes_more, crate::proofs::Putting::bytes_all), unfolding(crate::specs::Writing::with_text))]
    pub fn bytes(&mut self, bytes: &[u8])
        ensures { self.new ≡ with_text bytes.now self.old }
    {
        for byte in bytes {
            self.byte(*byte);
        }
    }

    // The number in decimal.
    #[tactic(auto, using(crate::proofs::Putting::one_digit, crate::proofs::Putting::last_digit))]
    pub fn number(&mut self, n: u64)
        ensures { self.new ≡ with_text (decimal n) self.old }
    {
        if n >= 10 {
            self.number(n / 10);
        }
        self.byte(b'0' + (n % 10) as u8);
    }

    fn end_of_line(&mut self)
        ensures { self.new ≡ with_text (13 ∷ 10 ∷ []) self.old }
    {
        self.bytes(b"\r\n");
    }

    // The next column, which is a number.
    #[tactic(auto, using(crate::proofs::Putting::one_after_another))]
    fn next_number(&mut self, n: u64)
        ensures { self.new ≡ with_text (44 ∷ decimal n) self.old }
    {
        self.byte(b',');
        self.number(n);
    }

    // A record of a word and of numbers.
    #[tactic(auto, using(crate::proofs::WrittenColumns::columns_more, crate::proofs::WrittenColumns::columns_all))]
    pub fn line(&mut self, word: &[u8], numbers: &[u64])
        ensures { self.new ≡ with_text (line_of (word.now ∷ map decimal numbers.now)) self.old }
    {
        self.bytes(word);
        for number in numbers {
            self.next_number(*number);
        }
        self.end_of_line();
    }
}
