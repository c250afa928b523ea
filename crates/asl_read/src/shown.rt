//! What the reading of some small machines comes to.

ghost use Rattle.asl_read.specs.Examples.{UnknownBeforeMissing, WaitIsLeftOut, NeverBoth, FloatIsNotWhole, NullIsNoPath};

/// The definitions compute on small machines.
pub fn examples()
    ensures unknown_before_missing { UnknownBeforeMissing }
    ensures wait_is_left_out { WaitIsLeftOut }
    ensures never_both { NeverBoth }
    ensures float_is_not_whole { FloatIsNotWhole }
    ensures null_is_no_path { NullIsNoPath }
{}
