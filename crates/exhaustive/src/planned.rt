// The planner's part: a small box goes into it, is narrowed by its code, and is read again.
use crate::small::{NOTHING, Size, Small};
use board::domains::Domains;
use board::refusal::Refusal;

pub fn enter(size: Size, b: &Small) -> Result<Domains, Refusal> {
    let mut d = Domains::new(size.sensors, size.slots, 2, size.kinds)?;
    d.limit(0, b.cands[0]);
    d.limit(1, b.cands[1]);
    d.limit(2, b.cands[2]);
    d.bar(0, !b.hi[0]);
    d.bar(1, !b.hi[1]);
    d.claim(0, b.lo[0]);
    d.claim(1, b.lo[1]);
    Ok(d)
}

pub fn read(d: &Domains) -> Small {
    if d.is_dead() {
        return NOTHING;
    }
    Small {
        cands: [candidates(d, 0), candidates(d, 1), candidates(d, 2)],
        lo: [d.lower(0), d.lower(1)],
        hi: [d.upper(0), d.upper(1)],
    }
}

// A sensor that the board does not have stands on slot 0.
fn candidates(d: &Domains, sensor: u8) -> u64 {
    if sensor < d.sensors() {
        d.candidates(sensor)
    } else {
        1
    }
}
