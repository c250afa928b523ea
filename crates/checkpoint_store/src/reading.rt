//! What is read from what a look finds.
ghost use Rattle.std.specs.Prelude.{◌≡◌, ◌<◌, ◌≤◌, length};
ghost use Rattle.std.specs.Option.{option_copied};
ghost use Rattle.world_model.specs.AnyCode.Code.{flags};
ghost use Rattle.checkpoint_store.specs.Entries.{condition_in};
ghost use Rattle.checkpoint_store.specs.Answers.{made_of, bits_before, full_reply, reply_of_bit};

use crate::answers::{Bit, Made};
use crate::slot::Slot;
use fanin_bitmap::Bitmap;
use place_name::MOST_BRANCHES;
use world_types::Held;

/// What a Create does that finds this.
pub fn made_by(slot: Option<&Slot>) -> Made
    ensures { result ≡ made_of (condition_in (option_copied slot.entry)) }
{
    match slot {
        None => Made::Won,
        Some(Slot::Live(_)) => Made::Had,
        Some(Slot::Tombstone) => Made::HadTombstone,
    }
}

/// The bitmap that is there, or one without a bit for so many branches.
fn bits_in(slot: Option<&Slot>, count: u32) -> Bitmap
    requires { count ≤ MOST_BRANCHES }
    ensures { result ≡ bits_before count (condition_in (option_copied slot.entry)) }
{
    match slot {
        Some(Slot::Live(Held::Bits(bits))) => bits.copy(),
        _ => Bitmap::new(count),
    }
}

/// The bitmap that is there, or one without a bit for so many branches, with one more bit.
pub fn with_bit(slot: Option<&Slot>, index: u32, count: u32) -> Bitmap
    requires within { count ≤ MOST_BRANCHES }
    requires below { index < length (bits_before count (condition_in (option_copied slot))) }
    ensures { result ≡ flags.set index (bits_before count (condition_in (option_copied slot.entry))) }
{
    let mut bits = bits_in(slot, count);
    bits.set(index);
    bits
}

/// What a Set answers that leaves this bitmap.
pub fn bit_of(bits: &Bitmap) -> Bit
    ensures { reply_of_bit result ≡ full_reply bits.now }
{
    if bits.is_full() {
        Bit::Full
    } else {
        Bit::NotFull
    }
}
