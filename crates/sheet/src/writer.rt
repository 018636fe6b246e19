//! Writes the records of a file into a lent output.
ghost use Rattle.std.specs.Prelude.{◌≡◌, ◌+◌, ◌^◌, ◌<◌, ◌≤◌, [], ◌∷◌, ◌++◌, length, drop, MatchResult};

use crate::format::{Cause, Record, VERSION};
use crate::kind::Kind;

/// Writes a file into an output that was lent, since there is no heap.
#[derive(Drop)]
pub struct Writer<'a> {
    pub(crate) out: &'a mut [u8],
    pub(crate) place: usize,
    ghost within: { place ≤ length out.now },
}

impl<'a> Writer<'a> {
    ghost use Rattle.sheet.specs.Layout.{version, mask_width, digits, encode, Held};
    ghost use Rattle.sheet.specs.Kinds.{code_of};
    ghost use Rattle.sheet.specs.Files.{bytes_of, grown, write_all, Puts};
    ghost use Rattle.sheet.specs.Steps.{number, meant, laid, laid_over, wrote, place_now, refused, refusal};

    /// Begins a file with the version byte.
    #[tactic(auto, using(std::proofs::lemmas::List::set_split), unfolding(crate::specs::Layout::version))]
    pub fn begin(out: &'a mut [u8]) -> Result<Writer<'a>, Cause>
        ensures whole { MatchResult result (λ w. bytes_of w ≡ write_all []) (λ _. length out.old ≡ 0) }
        ensures value { MatchResult result (λ w. (0 < length out.old) × (w.out.now ≡ version ∷ drop 1 out.old) × (w.place ≡ 1)) (λ e. (length out.old ≡ 0) × (number e ≡ 9)) }
    {
        if out.is_empty() {
            return Err(Cause::Room);
        }
        out[0] = VERSION;
        Ok(Writer { out, place: 1 })
    }

    // Lays a piece after what was written.
    #[tactic(auto, using(crate::proofs::Outputs::laid_part))]
    fn lay(&mut self, piece: &[u8])
        requires { self.old.place + length piece.now ≤ length self.old.out.now }
        ensures out { self.new.out.now ≡ laid self.old.out.now self.old.place piece.now }
        ensures place { self.new.place ≡ self.old.place + length piece.now }
    {
        let end = self.place + piece.len();
        self.out[self.place..end].copy_from_slice(piece);
        self.place = end;
    }

    // Writes kind and fields, the fields in two parts, with their length in front.
    fn put(&mut self, kind: Kind, front: &[u8], back: &[u8]) -> Result<(), Cause>
        requires { length front.now < 256 }
        ensures { Puts (code_of kind ∷ (front.now ++ back.now)) back.now self.old self.new result }
    {
        let len = 1 + front.len() + back.len();
        kind.check(len, back)?;
        if self.out.len() - self.place < 2 + len {
            return Err(Cause::Room);
        }
        let [high, low] = (len as u16).to_be_bytes();
        self.lay(&[high, low, u8::from(kind)]);
        self.lay(front);
        self.lay(back);
        Ok(())
    }

    // Writes a sensor or a set, and its mask.
    fn put_entry(&mut self, kind: Kind, number: u8, mask: u64) -> Result<(), Cause>
        ensures put { Puts (code_of kind ∷ number ∷ digits mask_width mask) (digits mask_width mask) self.old self.new result }
        ensures held { mask < 256 ^ mask_width }
    {
        self.put(kind, &[number], &mask.to_be_bytes())
    }

    // Writes G, S and T.
    fn put_triple(&mut self, kind: Kind, g: u64, s: u8, t: u8) -> Result<(), Cause>
        ensures put { Puts (code_of kind ∷ (digits mask_width g ++ (s ∷ t ∷ []))) (s ∷ t ∷ []) self.old self.new result }
        ensures held { g < 256 ^ mask_width }
    {
        self.put(kind, &g.to_be_bytes(), &[s, t])
    }

    /// Writes a record after what was written. A refusal leaves output and place as they were.
    pub fn write(&mut self, one: &Record<'_>) -> Result<(), Cause>
        ensures value { refused result ≡ refusal (wrote (meant one.now) self.old.place self.old.out.now) }
        ensures place { self.new.place ≡ place_now (wrote (meant one.now) self.old.place self.old.out.now) self.old.place }
        ensures out { self.new.out.now ≡ laid_over (wrote (meant one.now) self.old.place self.old.out.now) self.old.out.now self.old.place (encode (meant one.now)) }
        ensures whole { bytes_of self.new ≡ grown (refused result) (bytes_of self.old) (encode (meant one.now)) }
        ensures held { Held (meant one.now) }
    {
        match *one {
            Record::Head { n, m, k, kinds } => self.put(
                Kind::Head,
                &[n, m, k],
                &kinds.to_be_bytes(),
            ),
            Record::Name { sensor, text } => self.put(Kind::Name, &[sensor], text),
            Record::Limit { sensor, mask } => self.put_entry(Kind::Limit, sensor, mask),
            Record::Claim { set, mask } => self.put_entry(Kind::Claim, set, mask),
            Record::Bar { set, mask } => self.put_entry(Kind::Bar, set, mask),
            Record::Range { g, s, t } => self.put_triple(Kind::Range, g, s, t),
            Record::Roots { g, s, t } => self.put_triple(Kind::Roots, g, s, t),
            Record::Within { a, b } => self.put(Kind::Within, &[a], &[b]),
            Record::Apart { a, b } => self.put(Kind::Apart, &[a], &[b]),
            Record::Count { a, p, q } => self.put(Kind::Count, &[a], &[p, q]),
            Record::Row { a } => self.put(Kind::Row, &[a], &[]),
        }
    }

    /// What was written so far.
    pub fn written(&self) -> &[u8]
        ensures { result.now ≡ bytes_of self.now }
    {
        &self.out[..self.place]
    }
}
