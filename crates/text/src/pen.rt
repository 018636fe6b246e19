// Texts are put by hand: std's `write!` may fail by its contract even where its writer never does, and then promises nothing.
ghost use Rattle.std.specs.Prelude.{◌≡◌, ℕ, List, decimal};
ghost use Rattle.text.specs.Lines.{members as members_text, bound, Put};
ghost use Rattle.text.specs.Pens.{Puts};
ghost use Rattle.text.specs.Printed.{Printed};

use board::refusal::Refusal;
use masks::members;

// An output, and the place where the next piece goes. A piece that does not fit is not written, and the pen moves on either way:
// over an empty output it tells how long a text is. The output is lent, since there is no heap.
#[derive(Drop)]
pub(crate) struct Pen<'a> {
    out: &'a mut [u8],
    pub(crate) at: usize,
}

impl<'a> Pen<'a> {
    pub(crate) fn new(out: &'a mut [u8]) -> Pen<'a>
        ensures same_output { result.out.ghost_name ≡ out.entry.ghost_name }
        ensures output { result.out.now ≡ out.old }
        ensures place { result.at ≡ 0 }
    {
        Pen { out, at: 0 }
    }

    // A piece as it stands. The sum wraps only where `Puts` says nothing.
    pub(crate) fn put(&mut self, piece: &[u8])
        ensures { Puts piece.now self.old self.new }
    {
        let end = self.at.wrapping_add(piece.len());
        if self.at <= end && end <= self.out.len() {
            self.out[self.at..end].copy_from_slice(piece);
        }
        self.at = end;
    }

    // A number of up to three digits, in decimal. It does not call itself, so the compiler can put it in line: a listing has thousands.
    pub(crate) fn number(&mut self, n: u8)
        ensures { Puts (decimal n) self.old self.new }
    {
        match n {
            0..10 => self.put(&[b'0' + n]),
            10..100 => self.put(&[b'0' + n / 10, b'0' + n % 10]),
            _ => self.put(&[b'0' + n / 100, b'0' + n / 10 % 10, b'0' + n % 10]),
        }
    }

    // A number of any length, in decimal.
    pub(crate) fn decimal(&mut self, n: u32)
        ensures { Puts (decimal n) self.old self.new }
    {
        if n >= 10 {
            self.decimal(n / 10);
        }
        self.put(&[b'0' + (n % 10) as u8]);
    }

    // The members of a mask, rising, a space before each.
    fn members(&mut self, mask: u64)
        ensures { Puts (members_text mask 64) self.old self.new }
    {
        for i in members(mask) {
            self.put(b" ");
            self.number(i);
        }
    }

    // The members of a mask, or a dash where it has none.
    pub(crate) fn bound(&mut self, mask: u64)
        ensures { Puts (bound mask) self.old self.new }
    {
        if mask == 0 {
            self.put(b" -");
        } else {
            self.members(mask);
        }
    }
}

// What has a text.
pub(crate) trait Text {
    ghost text: { Self → List ℕ };

    // Puts the text at the front of an output and tells its length.
    fn write(&self, out: &mut [u8]) -> usize
        ensures { Put (text self.now) 0 result out.old out.new };
}

// Writes the text of a value at the front of the output and tells its length.
// Where the output is too short, it is refused and left as it was.
pub(crate) fn print<T: Text>(value: &T, out: &mut [u8]) -> Result<usize, Refusal>
    ensures { Printed (T.text value.now) result out.old out.new }
{
    if value.write(&mut []) > out.len() {
        return Err(Refusal::Output);
    }
    Ok(value.write(out))
}
