//! The first pass: whether a file can be loaded, found without the draft.
ghost use Rattle.std.specs.Prelude.{◌≡◌, OnOk, if◌then◌else◌, min, nat_le};
ghost use Rattle.model.specs.Capacity.{most_places};
ghost use Rattle.model.specs.Calls.{State};
ghost use Rattle.board.specs.Numbers.{outcome};
ghost use Rattle.kinds.specs.declared.SheetRule.{SheetRule};
ghost use Rattle.load.specs.Acts.{verdict, taken};
ghost use Rattle.load.specs.Walks.{walks_on};
ghost use Rattle.load.specs.Loads.{Stands, blank, first_fault, load_fault, fault_of};

use crate::act::Act;
use crate::fault::{LoadCause, LoadFault};
use board::domains::Domains;
use board::refusal::{Refusal, earlier};
use kinds::SheetRule;
use plan::draft::fit_count;
use rule::Rule;
use sheet::Reader;

/// What is kept of a plan to check records: its board, and how many places and rules it has.
/// It has counts and no rules: that is all a refusal depends on.
#[derive(Drop)]
pub(crate) struct Sketch {
    pub(crate) board: Domains,
    pub(crate) places: usize,
    pub(crate) count: usize,
}

impl Sketch {
    fn begin(places: usize) -> Sketch
        ensures { Stands (blank places) result }
    {
        Sketch {
            board: Domains::least(),
            places,
            count: 0,
        }
    }

    #[tactic(auto, unfolding(crate::specs::Acts::verdict, crate::specs::Acts::taken))]
    fn new(&mut self, n: u8, m: u8, k: u8, kinds: u32) -> Result<(), Refusal>
        ensures answer { (s : State SheetRule) → outcome result ≡ verdict (Act.New n m k kinds) s }
        ensures after { OnOk result ((s : State SheetRule) → Stands s self.old → Stands (taken (Act.New n m k kinds) s) self.new) }
    {
        self.board = Domains::new(n, m, k, u64::from(kinds))?;
        self.count = 0;
        Ok(())
    }

    #[tactic(auto, unfolding(crate::specs::Acts::verdict, crate::specs::Acts::taken))]
    fn post(&mut self, rule: SheetRule) -> Result<(), Refusal>
        ensures answer { (s : State SheetRule) → Stands s self.old → outcome result ≡ verdict (Act.Post rule) s }
        ensures after { OnOk result ((s : State SheetRule) → Stands s self.old → Stands (taken (Act.Post rule) s) self.new) }
    {
        earlier(rule.fit(&self.board), self.room())?;
        self.count += 1;
        Ok(())
    }

    // Whether there is a place for one more rule.
    fn room(&self) -> Result<(), Refusal>
        ensures { outcome result ≡ (if nat_le (min self.now.places most_places) self.now.count then 8 else 0) }
    {
        fit_count(self.places, self.count)
    }

    // What the planner answers, and what is kept of the plan after it.
    #[tactic(auto, unfolding(crate::specs::Acts::verdict, crate::specs::Acts::taken))]
    fn take(&mut self, act: Act) -> Result<(), Refusal>
        ensures answer { (s : State SheetRule) → Stands s self.old → outcome result ≡ verdict act s }
        ensures after { OnOk result ((s : State SheetRule) → Stands s self.old → Stands (taken act s) self.new) }
    {
        match act {
            Act::New { n, m, k, kinds } => self.new(n, m, k, kinds),
            Act::Name { sensor } => self.board.fit_sensor(sensor),
            Act::Limit { sensor, mask } => self.board.fit_limit(sensor, mask),
            Act::Claim { set, mask } | Act::Bar { set, mask } => { self.board.fit_bound(set, mask) }
            Act::Post(rule) => self.post(rule),
        }
    }
}

// Checks the records that a reader has still to read.
fn check_records(mut reader: Reader<'_>, mut sketch: Sketch) -> Result<(), LoadFault>
    ensures { (s : State SheetRule) → Stands s sketch → fault_of result ≡ first_fault s (walks_on reader.entry) }
{
    loop {
        let position = reader.position() as u32;
        let next = reader.next().map_err(|fault| LoadFault {
            cause: LoadCause::Sheet(fault.cause),
            position,
        })?;
        let Some(one) = next else {
            return Ok(());
        };
        sketch.take(Act::from(one)).map_err(|refusal| LoadFault {
            cause: LoadCause::Plan(refusal),
            position,
        })?;
    }
}

/// What loading the file into so many places answers.
#[tactic(auto, using(crate::proofs::Walking::opened), unfolding(crate::specs::Loads::load_fault))]
pub(crate) fn check(file: &[u8], places: usize) -> Result<(), LoadFault>
    ensures { fault_of result ≡ load_fault file.now places }
{
    let reader = Reader::open(file).map_err(|fault| LoadFault {
        cause: LoadCause::Sheet(fault.cause),
        position: 0,
    })?;
    check_records(reader, Sketch::begin(places))
}
