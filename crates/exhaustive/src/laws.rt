// The rules that a small board is tried with.
use crate::small::Size;
use kinds::SheetRule;
use range::range::Range;
use roots::implication::Implication;
use roots::roots::Roots;
use sets::apart::Apart;
use sets::count::Count;
use sets::row::Row;
use sets::within::Within;
use std::alloc::{AllocError, Global};

// The most that a count asks for: one more than there can be.
const MOST: u8 = 4;

// Rules of a sheet: Range and Roots with every g, or Within and Apart both ways; Row and every count of each set.
pub fn rules(heap: Global, size: Size) -> Result<Vec<SheetRule>, AllocError> {
    let mut list = Vec::new(heap);
    if size.is_mixed() {
        for g in 0..size.sensors_end() {
            list.push(SheetRule::Range(Range { g, s: 0, t: 1 }))?;
            list.push(SheetRule::Roots(Roots { g, s: 0, t: 1 }))?;
        }
    } else {
        list.push(SheetRule::Within(Within { a: 0, b: 1 }))?;
        list.push(SheetRule::Within(Within { a: 1, b: 0 }))?;
        list.push(SheetRule::Apart(Apart { a: 0, b: 1 }))?;
        list.push(SheetRule::Apart(Apart { a: 1, b: 0 }))?;
    }
    for a in 0..2 {
        list.push(SheetRule::Row(Row { a }))?;
        push_counts(&mut list, a)?;
    }
    Ok(list)
}

fn push_counts(list: &mut Vec<SheetRule>, a: u8) -> Result<(), AllocError> {
    for most in 0..MOST + 1 {
        for least in 0..most + 1 {
            list.push(SheetRule::Count(Count { a, least, most }))?;
        }
    }
    Ok(())
}

// The implications that Roots rules are made of.
pub fn parts(heap: Global, size: Size) -> Result<Vec<Implication>, AllocError> {
    let mut list = Vec::new(heap);
    if size.is_mixed() {
        let (s, t) = (0, 1);
        for sensor in 0..size.sensors {
            list.push(Implication::Excluded { sensor, s })?;
            list.push(Implication::Implies { sensor, s, t })?;
            list.push(Implication::ImpliedBy { sensor, s, t })?;
        }
    }
    Ok(list)
}
