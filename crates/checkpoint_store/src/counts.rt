//! A count for each session, in constant time.
ghost use Rattle.std.specs.Prelude.{◌≡◌, ℕ, ◌+◌, ◌-◌, ◌^◌, ◌<◌, length, slice_index, slice_set, OnOk};

use unum_json::NoMemory;

/// The count of a session.
pub fn count_of(counts: &[u64], session: u32) -> u64
    ensures { result ≡ slice_index counts.now session }
{
    match counts.get(session as usize) {
        Some(count) => *count,
        None => 0,
    }
}

/// Makes room for the count of a session. No count changes.
pub fn make_room(counts: &mut Vec<u64>, session: u32) -> Result<(), NoMemory>
    ensures room { OnOk result (session < length counts.new.items) }
    ensures same { (s : ℕ) → slice_index counts.new.items s ≡ slice_index counts.old.items s }
{
    while counts.len() <= session as usize {
        counts.push(0)?;
    }
    Ok(())
}

/// One more in that session.
pub fn add_one(counts: &mut Vec<u64>, session: u32)
    requires room { session < length counts.old.items }
    requires fits { slice_index counts.old.items session < 2 ^ 63 }
    ensures { counts.new.items ≡ slice_set counts.old.items session (slice_index counts.old.items session + 1) }
{
    counts[session as usize] += 1;
}

/// One fewer in that session.
pub fn take_one(counts: &mut Vec<u64>, session: u32)
    requires some { 0 < slice_index counts.old.items session }
    ensures { counts.new.items ≡ slice_set counts.old.items session (slice_index counts.old.items session - 1) }
{
    counts[session as usize] -= 1;
}
