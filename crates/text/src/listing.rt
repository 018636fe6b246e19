ghost use Rattle.std.specs.Prelude.{◌≡◌};
ghost use Rattle.text.specs.Lines.{sensor_line, set_line, sensor_lines, set_lines, listing as listing_text, longest_listing, LongestHolds};
ghost use Rattle.text.specs.Pens.{Puts};
ghost use Rattle.text.specs.Printed.{Printed};
ghost use Rattle.board.specs.Model.{board, model};

use crate::pen::{Pen, Text, print};
use board::domains::Domains;
use board::refusal::Refusal;

// The length of the longest listing of any board.
pub const LONGEST_LISTING: usize = 24300;

// No listing is longer than that, and one is as long.
pub fn longest_stands()
    ensures value { LONGEST_LISTING ≡ longest_listing }
    ensures longest { LongestHolds }
{}

// Writes the listing of a box at the front of the output and tells its length.
// Where the output is too short, it is refused and left as it was. A length and no slice of the output, as std's `read` gives it.
pub fn listing(d: &Domains, out: &mut [u8]) -> Result<usize, Refusal>
    ensures { Printed (listing_text (board d.now) (model d.now)) result out.old out.new }
{
    print(d, out)
}

impl Text for Domains {
    ghost text = { λ d. listing_text (board d) (model d) };

    fn write(&self, out: &mut [u8]) -> usize {
        let mut pen = Pen::new(out);
        pen.listing(self);
        pen.at
    }
}

impl Pen<'_> {
    // The lines of a box, or of a dead one.
    fn listing(&mut self, d: &Domains)
        ensures { Puts (listing_text (board d.now) (model d.now)) self.old self.new }
    {
        if d.is_dead() {
            return self.put(b"dead end\n");
        }
        self.sensors(d);
        self.sets(d);
    }

    // The lines of all sensors.
    fn sensors(&mut self, d: &Domains)
        ensures { Puts (sensor_lines (model d.now).cands (board d.now).sensors) self.old self.new }
    {
        for i in 0..d.sensors() {
            self.sensor(i, d.candidates(i));
        }
    }

    // The lines of all sets.
    fn sets(&mut self, d: &Domains)
        ensures { Puts (set_lines (model d.now).lows (model d.now).highs (board d.now).sets) self.old self.new }
    {
        for j in 0..d.sets() {
            self.set(j, d.lower(j), d.upper(j));
        }
    }

    // The line of a sensor: its candidates.
    fn sensor(&mut self, i: u8, cands: u64)
        ensures { Puts (sensor_line i cands) self.old self.new }
    {
        self.put(b"sensor ");
        self.number(i);
        self.put(b":");
        self.bound(cands);
        self.put(b"\n");
    }

    // The line of a set: its two bounds.
    fn set(&mut self, j: u8, lo: u64, hi: u64)
        ensures { Puts (set_line j lo hi) self.old self.new }
    {
        self.put(b"set ");
        self.number(j);
        self.put(b":");
        self.bound(lo);
        self.put(b" /");
        self.bound(hi);
        self.put(b"\n");
    }
}
