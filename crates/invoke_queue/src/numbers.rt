//! Sets of numbers that are quick to change and to index.
ghost use Rattle.std.specs.Prelude.{◌≡◌, ◌+◌, ◌*◌, ◌/◌, ◌<◌, ◌≤◌, ◌↔◌, [], ◌∷◌, ◌++◌, Bool, true, false, List, IsTrue, MatchOption, OnOk, OnErr, length, slice_get, slice_index, slice_set, sum, take};
ghost use Rattle.asl_model.specs.Laws.{In};
ghost use Rattle.world_plans.specs.Changes.{numbers_set, numbers_with, numbers_without};
ghost use Rattle.invoke_queue.specs.Numbers.{rank, IsCountAt, IsFlagAt, Covers};

use std::alloc::Global;
use std::marker::Model;
use unum_json::NoMemory;

/// How many numbers a block has.
const BLOCK: usize = 256;
/// How many numbers a block of blocks has.
const WIDE: usize = 65536;

/// A set of numbers below a room that grows. Contracts see the numbers by rising number. To put a number in or out takes a
/// few steps, and to find one by its index some hundreds with a million numbers.
#[derive(Drop)]
pub struct Numbers {
    /// Whether each number is in the set.
    flags: Vec<bool>,
    /// How many of each 256 numbers are.
    blocks: Vec<u32>,
    /// How many of each 65,536 numbers are.
    wide: Vec<u32>,
    /// How many numbers are.
    len: u32,
}

impl Model for Numbers {
    ghost use Rattle.invoke_queue.specs.Numbers.{NumberSet, set_of, IsCountedSet};

    ghost Value = { NumberSet };

    ghost view = { λ s. set_of s.flags.items };

    ghost invariant = { λ s. IsCountedSet s.flags.items s.blocks.items s.wide.items s.len };
}

/// The first count, from `from` on, at which more than `left` are passed: its index, and what is left there.
fn seek(counts: &[u32], from: usize, left: u32) -> Option<(usize, u32)>
    ensures found { MatchOption result (sum counts.now ≤ sum (take from counts.now) + left) (IsCountAt counts.now from left) }
{
    let mut rest = left;
    for at in from..counts.len() {
        let count = counts[at];
        if rest < count {
            return Some((at, rest));
        }
        rest -= count;
    }
    None
}

/// The flag, from `from` on, that is set after `left` others: its index.
fn seek_flag(flags: &[bool], from: usize, left: u32) -> Option<usize>
    ensures found { MatchOption result (rank (length flags.now) flags.now ≤ rank from flags.now + left) (IsFlagAt flags.now from left) }
{
    let mut rest = left;
    for at in from..flags.len() {
        if flags[at] {
            if rest == 0 {
                return Some(at);
            }
            rest -= 1;
        }
    }
    None
}

/// Makes a block for the number `number`, if it is the first one of its block.
fn cover(counts: &mut Vec<u32>, width: usize, number: usize) -> Result<(), NoMemory>
    requires { 0 < width }
    ensures ok { OnOk result (Covers width number counts.old.items counts.new.items) }
    ensures err { OnErr result (counts.new.items ≡ counts.old.items) }
{
    if number / width == counts.len() {
        counts.push(0)?;
    }
    Ok(())
}

impl Numbers {
    /// The empty set, without room, which takes no memory.
    pub fn new(alloc: Global) -> Numbers
        ensures { result ≡ record { numbers = []; room = 0 } }
    {
        Numbers {
            flags: Vec::new(alloc),
            blocks: Vec::new(alloc),
            wide: Vec::new(alloc),
            len: 0,
        }
    }

    /// How many numbers are in the set.
    pub fn len(&self) -> usize
        ensures { result ≡ length self.now.numbers }
    {
        self.len as usize
    }

    /// How many numbers the set has room for: each below it can be put in.
    pub fn room(&self) -> usize
        ensures { result ≡ self.now.room }
    {
        self.flags.len()
    }

    /// Whether the number is in the set.
    pub fn contains(&self, number: u32) -> bool
        ensures { IsTrue result ↔ In number self.now.numbers }
    {
        match self.flags.get(number as usize) {
            Some(flag) => *flag,
            None => false,
        }
    }

    /// The number with an index, by rising number, or `None` exactly past the end.
    pub fn at(&self, index: usize) -> Option<u32>
        ensures { result ≡ slice_get self.now.numbers index }
    {
        if index >= self.len as usize {
            return None;
        }
        let (wide, left) = seek(&self.wide, 0, index as u32)?;
        let (block, left) = seek(&self.blocks, wide * BLOCK, left)?;
        let at = seek_flag(&self.flags, block * BLOCK, left)?;
        Some(at as u32)
    }

    /// Makes room for one number more. All other calls take no memory.
    pub fn grow(&mut self) -> Result<(), NoMemory>
        requires { self.old.room < 4294967295 }
        ensures ok { OnOk result (self.new ≡ record self.old { room = self.old.room + 1 }) }
        ensures err { OnErr result (self.new ≡ self.old) }
    {
        cover(&mut self.blocks, BLOCK, self.flags.len())?;
        cover(&mut self.wide, WIDE, self.flags.len())?;
        self.flags.push(false)?;
        Ok(())
    }

    /// Puts a number in.
    pub fn insert(&mut self, number: u32)
        requires { number < self.old.room }
        ensures { self.new ≡ record self.old { numbers = numbers_with number self.old.numbers } }
    {
        let at = number as usize;
        if !self.flags[at] {
            self.flags[at] = true;
            self.blocks[at / BLOCK] += 1;
            self.wide[at / WIDE] += 1;
            self.len += 1;
        }
    }

    /// Takes a number out.
    pub fn remove(&mut self, number: u32)
        requires { number < self.old.room }
        ensures { self.new ≡ record self.old { numbers = numbers_without number self.old.numbers } }
    {
        let at = number as usize;
        if self.flags[at] {
            self.flags[at] = false;
            self.blocks[at / BLOCK] -= 1;
            self.wide[at / WIDE] -= 1;
            self.len -= 1;
        }
    }

    /// Puts a number in, or takes it out.
    pub fn put(&mut self, number: u32, present: bool)
        requires { number < self.old.room }
        ensures { self.new ≡ record self.old { numbers = numbers_set present number self.old.numbers } }
    {
        if present {
            self.insert(number);
        } else {
            self.remove(number);
        }
    }
}
