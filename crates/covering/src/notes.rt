ghost use Rattle.std.specs.Prelude.{◌^◌, ◌<◌};
ghost use Rattle.covering.specs.Paired.{Matched};

/// The number of a sensor or of a slot, or `NONE`. A mark and no Option, since the search reads them from fixed arrays of bytes.
pub type Note = u8;

pub const NONE: Note = 64;

/// A sensor for each slot of `claimed`, and the slot of each sensor that has one.
/// Arrays of fixed length: there is no heap, and a map would be searched where these are indexed.
#[derive(Clone, Copy)]
pub struct Pairs {
    /// For each slot the sensors that may take it.
    pub takers: [u64; 64],
    pub sensors: u64,
    pub claimed: u64,
    /// Sensors to try first: those that were given no slot. In what `cover` gives, all others have one.
    pub idle: u64,
    pub notes: [Note; 64],
    pub owner: [Note; 64],
}

/// A covering of the claimed slots.
#[derive(Clone, Copy)]
pub struct Notes {
    pub pairs: Pairs,
    ghost matching: { Matched pairs },
    ghost sized: { pairs.sensors < 2 ^ 64 },
}
