#![tactic(auto)]
// The text of numbers, in ASCII, put into lent bytes one piece after the other.
ghost use Rattle.std.specs.Prelude.{◌≡◌, ◌+◌, ◌<◌, ◌≤◌, [], ◌∷◌, length};
ghost use Rattle.text.specs.Text.{code_of, shown_from, decimal_of, hex_of};
ghost use Rattle.text.specs.Pages.{HasRoom, Puts};

// Lent bytes that are filled from the front, and where the next text begins in them.
#[derive(Drop)]
pub struct Page<'a> {
    pub bytes: &'a mut [u8],
    pub end: usize,
}

impl Page<'_> {
    // One byte.
    pub fn put(&mut self, code: u8)
        requires { HasRoom self.old 1 }
        ensures { Puts self.old (code ∷ []) self.new }
    {
        self.bytes[self.end] = code;
        self.end += 1;
    }

    // A number below 100,000 in decimal.
    #[tactic(auto, using(crate::proofs::Decimals::decimal_length))]
    pub fn put_decimal(&mut self, n: u64)
        requires { HasRoom self.old (length (decimal_of n)) }
        ensures { Puts self.old (decimal_of n) self.new }
    {
        self.put_shown(10000, n);
        self.put_shown(1000, n);
        self.put_shown(100, n);
        self.put_shown(10, n);
        self.put(code(n % 10));
    }

    // The digit of n at a unit, and nothing where n is below it.
    #[tactic(auto, using(crate::proofs::TextPieces::shown, crate::proofs::TextPieces::shown_not, crate::proofs::TextPieces::puts_none))]
    fn put_shown(&mut self, unit: u64, n: u64)
        requires { (0 < unit) × HasRoom self.old (length (shown_from unit n)) }
        ensures { Puts self.old (shown_from unit n) self.new }
    {
        if n >= unit {
            self.put(code(n / unit % 10));
        }
    }

    // The 16 hexadecimal digits of a word.
    pub fn put_hex(&mut self, word: u64)
        requires { HasRoom self.old 16 }
        ensures put { Puts self.old (hex_of 16 word) self.new }
        ensures value { self.new.end ≡ self.old.end + 16 }
    {
        for k in (0..16u32).rev() {
            self.put(code((word >> (4 * k)) % 16));
        }
    }
}

// The code of a digit.
fn code(digit: u64) -> u8
    requires { digit < 16 }
    ensures { result ≡ code_of digit }
{
    if digit < 10 {
        48 + digit as u8
    } else {
        55 + digit as u8
    }
}
