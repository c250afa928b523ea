//! The bitmap of one fan.
ghost use Rattle.std.specs.Prelude.{◌≡◌, ◌<◌, ◌≤◌, length, slice_get, Some};
ghost use Rattle.world_model.specs.AnyCode.Code.{flags};

use place_name::MOST_BRANCHES;
use std::marker::Model;

/// A word has this many bits.
const WORD_BITS: u32 = 64;

/// This many words have a bit for each branch of the largest fan.
const WORDS: usize = 16;

/// Which branches of a fan have ended: a flag for each branch, by its index. How many are set is kept beside them.
#[derive(Drop)]
pub struct Bitmap {
    words: [u64; WORDS],
    count: u32,
    set: u32,
}

impl Model for Bitmap {
    ghost use Rattle.std.specs.Prelude.{List, Bool};
    ghost use Rattle.fanin_bitmap.specs.Words.{flags_in, Keeps};

    ghost Value = { List Bool };

    ghost view = { λ b. flags_in b.words b.count };

    ghost invariant = { λ b. Keeps b.words b.count b.set };
}

impl Bitmap {
    /// A bitmap for that many branches, of which none has ended.
    pub fn new(count: u32) -> Bitmap
        requires { count ≤ MOST_BRANCHES }
        ensures { result ≡ flags.none count }
    {
        Bitmap {
            words: [0; WORDS],
            count,
            set: 0,
        }
    }

    /// How many branches there are.
    pub fn len(&self) -> u32
        ensures len { result ≡ length self.now }
        ensures within { result ≤ MOST_BRANCHES }
    {
        self.count
    }

    /// Whether the branch with that index has ended.
    pub fn get(&self, index: u32) -> bool
        requires { index < length self.now }
        ensures { slice_get self.now index ≡ Some result }
    {
        let word = self.words[(index / WORD_BITS) as usize];
        word >> (index % WORD_BITS) & 1 == 1
    }

    /// Notes that the branch with that index has ended. Where it had ended already, nothing changes.
    pub fn set(&mut self, index: u32)
        requires { index < length self.old }
        ensures { self.new ≡ flags.set index self.old }
    {
        if self.get(index) {
            return;
        }
        self.words[(index / WORD_BITS) as usize] |= 1 << (index % WORD_BITS);
        self.set += 1;
    }

    /// Whether each branch has ended. It reads the count alone.
    pub fn is_full(&self) -> bool
        ensures { result ≡ flags.is_full (length self.now) self.now }
    {
        self.set == self.count
    }

    /// The same bitmap once more.
    pub fn copy(&self) -> Bitmap
        ensures { result ≡ self.now }
    {
        Bitmap {
            words: self.words,
            count: self.count,
            set: self.set,
        }
    }
}
