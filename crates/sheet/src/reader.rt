//! Reads the records of a file, one at a time.
ghost use Rattle.std.specs.Prelude.{◌≡◌, ◌<◌, ◌≤◌, length, drop, nat_lt, true, false, is_err, Err, MatchResult};
ghost use Rattle.sheet.specs.declared.format.TheConstants.{LONGEST};

use crate::fault::Fault;
use crate::fields::{first, is_head};
use crate::format::{Cause, LONGEST, Record, VERSION};

/// Hands out the records of a file, one at a time. A refusal names a place, so the reader keeps the file and a place in it and no slice of the rest.
#[derive(Drop)]
pub struct Reader<'a> {
    pub(crate) file: &'a [u8],
    pub(crate) at: usize,
    ghost short: { length file.now ≤ LONGEST },
    ghost begins: { 0 < at },
    ghost within: { at ≤ length file.now },
}

impl<'a> Reader<'a> {
    ghost use Rattle.sheet.specs.Files.{read_all, reads_on, then, unread, Lessens};
    ghost use Rattle.sheet.specs.Steps.{number, step_of, answer, opens, bare, told, turned, Moved};

    /// A reader at the first record.
    #[tactic(auto, unfolding(crate::specs::Layout::version, crate::specs::Layout::longest))]
    pub fn open(file: &'a [u8]) -> Result<Reader<'a>, Fault>
        ensures value { MatchResult result (λ x. (opens file.now ≡ true) × (x.file.now ≡ file.now) × (x.at ≡ 1)) (λ f. (opens file.now ≡ false) × (number f.cause ≡ 10) × (f.position ≡ 0)) }
        ensures whole { MatchResult result (λ x. read_all file.now ≡ reads_on x) (λ f. read_all file.now ≡ Err (number f.cause, f.position)) }
    {
        match file {
            [VERSION, ..] if file.len() <= LONGEST => Ok(Reader { file, at: 1 }),
            _ => Err(Fault {
                cause: Cause::File,
                position: 0,
            }),
        }
    }

    /// Where the next record begins, or the file ends.
    pub fn position(&self) -> usize
        ensures { result ≡ self.now.at }
    {
        let Reader { at, .. } = self;
        *at
    }

    // Whether the head was read: before it there is only the version byte.
    pub(crate) fn begun(&self) -> bool
        ensures { result ≡ nat_lt 1 self.now.at }
    {
        1 < self.at
    }

    // The bytes that are not read yet.
    pub(crate) fn rest(&self) -> &'a [u8]
        ensures { result.now ≡ drop self.now.at self.now.file.now }
    {
        &self.file[self.at..]
    }

    // Takes the next step. What is refused has no position yet.
    fn advance(&mut self) -> Result<Option<Record<'a>>, Cause>
        ensures value { step_of result ≡ bare (turned self.old) }
        ensures moved { Moved self.old self.new }
        ensures kept { is_err result ≡ true → self.new ≡ self.old }
    {
        let rest = self.rest();
        if rest.is_empty() {
            return if self.begun() {
                Ok(None)
            } else {
                Err(Cause::Order)
            };
        }
        let (one, taken) = first(rest)?;
        if is_head(&one) == self.begun() {
            return Err(Cause::Order);
        }
        self.at += taken;
        Ok(Some(one))
    }

    /// The next record, or none at the end. A refusal leaves the reader as it was.
    pub fn next(&mut self) -> Result<Option<Record<'a>>, Fault>
        ensures value { answer result ≡ told self.old.at (turned self.old) }
        ensures moved { Moved self.old self.new }
        ensures whole { reads_on self.old ≡ then (answer result) (reads_on self.new) }
        ensures less { Lessens (answer result) (unread self.old) (unread self.new) }
        ensures kept { is_err result ≡ true → self.new ≡ self.old }
    {
        let position = self.at;
        self.advance().map_err(|cause| Fault { cause, position })
    }
}
