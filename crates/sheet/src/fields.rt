//! Takes the bytes of a record apart.
ghost use Rattle.std.specs.Prelude.{◌≡◌, ◌+◌, ◌<◌, ◌≤◌, length, drop, None, slice_index};
ghost use Rattle.sheet.specs.Layout.{word_width, mask_width, flaw, mask_at, parsed, inside, decode, headed as is_head_lem};
ghost use Rattle.sheet.specs.Kinds.{code_of};
ghost use Rattle.sheet.specs.Steps.{meant, inside_of, decode_of};

use crate::format::{Cause, MASK_WIDTH, Record};
use crate::kind::Kind;

// The mask in the first bytes.
#[tactic(auto, unfolding(crate::specs::Layout::mask_width))]
fn mask_of(bytes: &[u8]) -> u64
    requires { mask_width ≤ length bytes.now }
    ensures { result ≡ mask_at 0 bytes.now }
{
    match bytes {
        [a, b, c, d, e, f, g, h, ..] => u64::from_be_bytes([*a, *b, *c, *d, *e, *f, *g, *h]),
        _ => unreachable(),
    }
}

#[tactic(auto, unfolding(crate::specs::Layout::word_width))]
fn head_of(fields: &[u8]) -> Record<'static>
    requires { length fields.now ≡ 3 + word_width }
    ensures { meant result ≡ parsed 1 fields.now }
{
    match fields {
        [n, m, k, a, b, c, d] => Record::Head {
            n: *n,
            m: *m,
            k: *k,
            kinds: u32::from_be_bytes([*a, *b, *c, *d]),
        },
        _ => unreachable(),
    }
}

fn name_of(fields: &[u8]) -> Record<'_>
    requires { 0 < length fields.now }
    ensures { meant result ≡ parsed 2 fields.now }
{
    match fields {
        [sensor, text @ ..] => Record::Name {
            sensor: *sensor,
            text,
        },
        _ => unreachable(),
    }
}

// A sensor or a set, and its mask.
fn entry_of(fields: &[u8]) -> (u8, u64)
    requires { length fields.now ≡ 1 + mask_width }
    ensures { (result.0 ≡ slice_index fields.now 0) × (result.1 ≡ mask_at 1 fields.now) }
{
    match fields {
        [number, mask @ ..] => (*number, mask_of(mask)),
        _ => unreachable(),
    }
}

// G, S and T.
#[tactic(auto, unfolding(crate::specs::Layout::mask_width))]
fn triple_of(fields: &[u8]) -> (u64, u8, u8)
    requires { length fields.now ≡ 2 + mask_width }
    ensures { (result.0 ≡ mask_at 0 fields.now) × (result.1 ≡ slice_index fields.now mask_width) × (result.2 ≡ slice_index fields.now (mask_width + 1)) }
{
    (mask_of(fields), fields[MASK_WIDTH], fields[MASK_WIDTH + 1])
}

// The record of a kind, from fields of its length.
fn parse(kind: Kind, fields: &[u8]) -> Record<'_>
    requires { flaw (code_of kind) (length fields.now + 1) (drop 1 fields.now) ≡ None }
    ensures { meant result ≡ parsed (code_of kind) fields.now }
{
    match kind {
        Kind::Head => head_of(fields),
        Kind::Name => name_of(fields),
        Kind::Limit => {
            let (sensor, mask) = entry_of(fields);
            Record::Limit { sensor, mask }
        }
        Kind::Claim => {
            let (set, mask) = entry_of(fields);
            Record::Claim { set, mask }
        }
        Kind::Bar => {
            let (set, mask) = entry_of(fields);
            Record::Bar { set, mask }
        }
        Kind::Range => {
            let (g, s, t) = triple_of(fields);
            Record::Range { g, s, t }
        }
        Kind::Roots => {
            let (g, s, t) = triple_of(fields);
            Record::Roots { g, s, t }
        }
        Kind::Within => Record::Within {
            a: fields[0],
            b: fields[1],
        },
        Kind::Apart => Record::Apart {
            a: fields[0],
            b: fields[1],
        },
        Kind::Count => Record::Count {
            a: fields[0],
            p: fields[1],
            q: fields[2],
        },
        Kind::Row => Record::Row { a: fields[0] },
    }
}

// The bytes after the first.
fn after_one(bytes: &[u8]) -> &[u8]
    ensures { result.now ≡ drop 1 bytes.now }
{
    bytes.get(1..).unwrap_or(&[])
}

// The record whose bytes after the length these are.
fn body(bytes: &[u8]) -> Result<Record<'_>, Cause>
    ensures { inside_of result ≡ inside bytes.now }
{
    let [code, fields @ ..] = bytes else {
        return Err(Cause::Kind);
    };
    let kind = Kind::try_from(*code)?;
    kind.check(bytes.len(), after_one(fields))?;
    Ok(parse(kind, fields))
}

// The first record of the bytes, and how many of them it takes.
pub(crate) fn first(bytes: &[u8]) -> Result<(Record<'_>, usize), Cause>
    ensures { decode_of result ≡ decode bytes.now }
{
    let [high, low, after @ ..] = bytes else {
        return Err(Cause::Length);
    };
    let len = u16::from_be_bytes([*high, *low]) as usize;
    if len == 0 || len > after.len() {
        return Err(Cause::Length);
    }
    let one = body(&after[..len])?;
    Ok((one, 2 + len))
}

pub(crate) fn is_head(one: &Record<'_>) -> bool
    ensures { result ≡ is_head_lem (meant one.now) }
{
    matches!(one, Record::Head { .. })
}
