//! Tests of what no clause says: calls succeed where there is memory, and long runs of calls beside a
//! plain list.
ghost use Rattle.std.specs.Prelude.{◌<◌};

use cow_scan::CowScan;
use pane_index::*;
use std::alloc::{AllocError, Global};
use std::marker::Send;
use std::test::Fail;

fn may_cross<T: Send>(_value: &T) {}

// Puts a number at a free place, as a tuple of four bytes.
fn add(pane: &mut Pane, value: u32) -> Result<Option<Place>, AllocError> {
    if pane.width() == 4 {
        Ok(Some(pane.add(&value.to_be_bytes())?))
    } else {
        Ok(None)
    }
}

// Puts a number at a place, where that may be done.
fn put(pane: &mut Pane, p: Place, value: u32) -> Result<bool, AllocError> {
    let may = pane.width() == 4 && pane.has_place(p);
    if may {
        pane.put(p, &value.to_be_bytes())?;
    }
    Ok(may)
}

// Takes the tuple of a place, if there is one.
fn take(pane: &mut Pane, p: Place) -> Result<bool, AllocError> {
    let may = pane.get(p).is_some();
    if may {
        pane.take(p)?;
    }
    Ok(may)
}

// Whether a place has this, a number or no tuple.
fn has(pane: &Pane, p: Place, value: Option<u32>) -> bool {
    match (pane.get(p), value) {
        (Some(tuple), Some(value)) => tuple == value.to_be_bytes().as_slice(),
        (None, None) => true,
        _ => false,
    }
}

fn place(n: usize) -> Place {
    Place::new((n % 1000000) as u32)
}

// A pane of the numbers from 0 on, so many, at the places of these numbers.
fn counted(alloc: Global, count: u32) -> Result<Pane, AllocError> {
    let mut pane = Pane::new(alloc, 4);
    for i in 0..count {
        let _place = add(&mut pane, i)?;
    }
    Ok(pane)
}

fn take_some(pane: &mut Pane, from: usize, to: usize) -> Result<bool, AllocError> {
    let mut all = true;
    for n in from..to {
        all = take(pane, place(n))? && all;
    }
    Ok(all)
}

// How many tuples moved before none could, each of them to an earlier place.
fn compact_all(pane: &mut Pane) -> Result<Option<u32>, AllocError> {
    for moves in 0..1000u32 {
        match pane.compact()? {
            Some((from, to)) => {
                if to >= from {
                    return Ok(None);
                }
            }
            None => return Ok(Some(moves)),
        }
    }
    Ok(None)
}

fn count_places(pane: &Pane) -> u32 {
    let mut count = 0u32;
    for p in pane.places() {
        if has(pane, p, None) {
            return 0;
        }
        count = count.wrapping_add(1);
    }
    count
}

// How many tuples a scan gives, and the sum of their first three bytes' last.
fn read(scan: &mut CowScan) -> (u32, u32) {
    let mut count = 0u32;
    let mut sum = 0u32;
    for _ in 0..100u32 {
        let Some(block) = scan.next_block() else {
            break;
        };
        for i in 0..64u8 {
            if let Some([_, _, _, byte]) = block.get(i) {
                count = count.wrapping_add(1);
                sum = sum.wrapping_add(*byte as u32);
            }
        }
    }
    (count, sum)
}

// A pane of the numbers from 0 on, so many, without those from one up to another.
fn thinned(alloc: Global, count: u32, from: usize, to: usize) -> Result<Pane, AllocError> {
    let mut pane = counted(alloc, count)?;
    let _all = take_some(&mut pane, from, to)?;
    Ok(pane)
}

// How many tuples there are, and up to which block.
fn shape(pane: &Pane) -> (u32, u32) {
    (pane.len(), pane.blocks())
}

// Whether 129 stands first, 70 at place 59, and nothing behind it.
fn is_compacted(pane: &Pane) -> bool {
    has(pane, place(0), Some(129))
        && has(pane, place(59), Some(70))
        && has(pane, place(60), None)
        && count_places(pane) == 60
}

/// Of 130 rows the first 70 are deleted: the others stand in one block once none can move. The last
/// tuple goes to the first place.
#[test]
fn rows_stand_in_one_block_after_compacting(rt: HostRuntime) -> Result<(), Fail> {
    let mut pane = thinned(rt.alloc(), 130, 0, 70)?;
    let before = shape(&pane);
    let moves = compact_all(&mut pane)?;
    assert_eq!(rt; (before, moves, shape(&pane)), ((60, 3), Some(60), (60, 1)));
    assert!(rt; is_compacted(&pane));
    Ok(())
}

// Puts a number over another, takes three and adds one, and tells whether all of that was done.
fn change(pane: &mut Pane) -> Result<bool, AllocError> {
    let was_put = put(pane, place(3), 200)?;
    let were_taken = take_some(pane, 0, 3)?;
    Ok(was_put && were_taken && add(pane, 7)?.is_some())
}

/// A scan gives the rows as they stood, whatever is written beside it.
#[test]
fn scan_keeps_the_rows(rt: HostRuntime) -> Result<(), Fail> {
    let mut pane = counted(rt.alloc(), 100)?;
    let mut scan = pane.share()?;
    may_cross(&scan);
    assert!(rt; change(&mut pane)?);
    let moves = compact_all(&mut pane)?;
    // 0 + 1 + .. + 99
    assert_eq!(rt;
        (moves, pane.len(), read(&mut scan)),
        (Some(3), 98, (100, 4950))
    );
    Ok(())
}

fn add_some(pane: &mut Pane, count: u32) -> Result<(), AllocError> {
    for i in 0..count {
        let _place = add(pane, i)?;
    }
    Ok(())
}

/// Free places are used again before there is a block more, but for a few.
#[test]
fn free_places_are_used_again(rt: HostRuntime) -> Result<(), Fail> {
    let mut pane = thinned(rt.alloc(), 640, 100, 300)?;
    add_some(&mut pane, 200)?;
    let ends = (pane.has_place(place(639)), pane.has_place(place(640)));
    assert_eq!(rt; (shape(&pane), ends), ((640, 10), (true, false)));
    Ok(())
}

/// A pane of the widest tuples has no rows at first.
#[test]
fn new_pane_is_empty(rt: HostRuntime) -> Result<(), Fail> {
    assert!(rt; Pane::new(rt.alloc(), 8192).is_empty());
    Ok(())
}

// A pane and what it ought to hold, by place.
#[derive(Drop)]
struct Beside {
    pane: Pane,
    list: Vec<Option<u32>>,
}

impl Beside {
    fn add(&mut self, value: u32) -> Result<bool, AllocError> {
        let Some(p) = add(&mut self.pane, value)? else {
            return Ok(false);
        };
        let n = p.number() as usize;
        for _ in self.list.len()..n + 1 {
            self.list.push(None)?;
        }
        Ok(set(&mut self.list, n, Some(value)) == Some(None))
    }

    fn put(&mut self, n: usize, value: u32) -> Result<bool, AllocError>
        requires { n < 1000 }
    {
        if !put(&mut self.pane, place(n), value)? {
            return Ok(n >= self.list.len());
        }
        for _ in self.list.len()..n + 1 {
            self.list.push(None)?;
        }
        Ok(set(&mut self.list, n, Some(value)).is_some())
    }

    fn take(&mut self, n: usize) -> Result<bool, AllocError> {
        let was_held = take(&mut self.pane, place(n))?;
        Ok(set(&mut self.list, n, None).flatten().is_some() == was_held)
    }

    fn compact(&mut self) -> Result<bool, AllocError> {
        let to = self.list.iter().position(|slot| slot.is_none());
        let from = self.list.iter().rposition(|slot| slot.is_some());
        let moved = self.pane.compact()?;
        let (Some(from), Some(to)) = (from, to) else {
            return Ok(moved.is_none());
        };
        if to >= from {
            return Ok(moved.is_none());
        }
        let tuple = set(&mut self.list, from, None).flatten();
        let was_free = set(&mut self.list, to, tuple) == Some(None);
        Ok(was_free && moved == Some((place(from), place(to))))
    }

    fn has_same_at(&self, n: usize) -> bool {
        has(&self.pane, place(n), self.list.get(n).copied().flatten())
    }

    // Whether the pane tells the places and the number of its tuples as the list does.
    fn is_same(&self) -> bool {
        let mut count = 0u32;
        let mut places = self.pane.places();
        let mut same = true;
        for n in 0..self.list.len() {
            if self.list[n].is_some() {
                count = count.wrapping_add(1);
                same = same && places.next() == Some(place(n)) && self.has_same_at(n);
            }
        }
        same && places.next().is_none() && self.pane.len() == count
    }
}

// Sets an element, and gives what was there.
fn set(list: &mut Vec<Option<u32>>, n: usize, slot: Option<u32>) -> Option<Option<u32>> {
    let was = list.get(n).copied()?;
    if n < list.len() {
        list[n] = slot;
    }
    Some(was)
}

fn next_random(random: u64) -> u64 {
    let mut x = random;
    x ^= x << 13;
    x ^= x >> 7;
    x ^ (x << 17)
}

// One call that the number chooses, mostly at a place among the first 500.
fn step(both: &mut Beside, random: u64) -> Result<bool, AllocError> {
    let n = (random / 64 % 500) as usize;
    let value = (random >> 32) as u32;
    match random % 8 {
        0..=2 => both.add(value),
        3 => both.put(n, value),
        4..=6 => both.take(n),
        _ => both.compact(),
    }
}

fn is_shared_at(step: u32) -> bool {
    step % 97 == 0
}

// Makes calls, and tells the number of the first after which the two differ. Each 97th time a scan is taken, after
// which blocks are copied.
fn first_difference(both: &mut Beside, calls: u32) -> Result<Option<u32>, AllocError> {
    let mut random = 88172645463325252;
    for i in 0..calls {
        random = next_random(random);
        if !is_alike_after(both, random)? || (is_shared_at(i) && !is_alike_when_shared(both)?) {
            return Ok(Some(i));
        }
    }
    Ok(None)
}

fn is_alike_after(both: &mut Beside, random: u64) -> Result<bool, AllocError> {
    Ok(step(both, random)? && both.has_same_at((random % 600) as usize))
}

fn is_alike_when_shared(both: &mut Beside) -> Result<bool, AllocError> {
    let _scan = both.pane.share()?;
    Ok(both.is_same())
}

/// Calls of all kinds beside a plain list, among them scans, after which blocks are copied.
#[test]
fn ten_thousand_calls_beside_a_list(rt: HostRuntime) -> Result<(), Fail> {
    let mut both = Beside {
        pane: Pane::new(rt.alloc(), 4),
        list: Vec::new(rt.alloc()),
    };
    assert_eq!(rt; first_difference(&mut both, 10000)?, None);
    assert!(rt; both.is_same());
    Ok(())
}
