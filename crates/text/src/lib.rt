// Text in a lent buffer: bytes, words and numbers, one after the other.
// This crate knows places in a buffer and how a number is spelled; it knows no report.
// It renders document 01's "Words and numbers are parted by one space" and "Each line ends in one line feed".
#![tactic(auto)]

ghost use Rattle.std.specs.Prelude.{◌≡◌, [], ◌∷◌, ◌+◌, ◌≤◌, ◌<◌, length};
ghost use Rattle.text.specs.Text.{spelled, decimal, Adds};

const DIGITS: usize = 20;

// The byte of a digit.
fn digit(value: u64) -> u8
    requires { value < 10 }
    ensures { result ≡ 48 + value }
{
    b'0' + value as u8
}

// A text that is put into a lent buffer from a place on, as far as there is room.
#[derive(Drop)]
pub struct Text<'a> {
    pub out: &'a mut [u8],
    pub at: usize,
}

impl<'a> Text<'a> {
    // Puts a byte, if the buffer reaches that far. It is tested by hand: std does not say what the slice ends as after `get_mut`.
    pub fn byte(&mut self, byte: u8)
        requires { self.old.at < 1000000 }
        ensures { Adds self.old (byte ∷ []) self.new }
    {
        let is_inside = self.at < self.out.len();
        if is_inside {
            self.out[self.at] = byte;
        }
        self.at += 1;
    }

    // Spells a number in at most `left` digits.
    fn spell(&mut self, value: u64, left: usize)
        requires { (left ≤ 20) × (self.old.at + left < 1000000) }
        ensures short { self.new.at ≤ self.old.at + left }
        ensures adds { Adds self.old (spelled left value) self.new }
    {
        if left == 0 {
            return;
        }
        if value >= 10 {
            self.spell(value / 10, left - 1);
        }
        self.byte(digit(value % 10));
    }

    // Spells a number.
    pub fn number(&mut self, value: u64)
        requires { self.old.at < 900000 }
        ensures short { self.new.at ≤ self.old.at + 20 }
        ensures adds { Adds self.old (decimal value) self.new }
    {
        self.spell(value, DIGITS);
    }

    // Puts a word.
    pub fn word(&mut self, word: &[u8])
        requires { (self.old.at < 900000) × (length word.now ≤ 100) }
        ensures { Adds self.old word.now self.new }
    {
        for &byte in word {
            self.byte(byte);
        }
    }
}
