ghost use Rattle.std.specs.Prelude.{◌≤◌, length};
ghost use Rattle.text.specs.Lines.{refused_line, longest_listing};
ghost use Rattle.text.specs.Printed.{Printed};

use crate::pen::{Pen, Text, print};
use board::refusal::Refusal;

// Writes the line of a refusal, its number and the position of what was refused, at the front of the output and tells its length.
// Where the output is too short, it is refused and left as it was. No line is longer than the longest listing.
// It takes any number: a narrower type would ask more of callers. `Display` of a load's fault has the same words: that goes to any formatter, this into
// an output that may be too short.
pub fn refused(number: u8, position: u32, out: &mut [u8]) -> Result<usize, Refusal>
    ensures printed { Printed (refused_line number position) result out.old out.new }
    ensures enough { length (refused_line number position) ≤ longest_listing }
{
    print(&RefusalLine { number, position }, out)
}

// A refusal's number, and the position of what was refused.
#[derive(Drop)]
struct RefusalLine {
    number: u8,
    position: u32,
}

impl Text for RefusalLine {
    ghost text = { λ r. refused_line r.number r.position };

    fn write(&self, out: &mut [u8]) -> usize {
        let RefusalLine { number, position } = *self;
        let mut pen = Pen::new(out);
        pen.put(b"refused ");
        pen.number(number);
        pen.put(b" at ");
        pen.decimal(position);
        pen.put(b"\n");
        pen.at
    }
}
