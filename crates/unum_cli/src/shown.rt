//! Words, plans, and how sessions stand, by examples.

ghost use Rattle.unum_cli.specs.Shown.{CentralWords, LimitBounds, LimitDigits, MakeWords, RunWords};
ghost use Rattle.unum_cli.specs.Worked.{Abandons, CrashesAndMarks, CrashesByRate, CrashesInTime, Draws, Ends, ListsFirst, Picks, StaysOpen, TwinsByRate};

/// Which words are which command, with which limit.
pub fn worked_words()
    ensures bounds { LimitBounds }
    ensures digits { LimitDigits }
    ensures central { CentralWords }
    ensures make { MakeWords }
    ensures run { RunWords }
{}

/// What some plans draw, and when an attempt crashes by one.
pub fn worked_plans()
    ensures draws { Draws }
    ensures crashes { CrashesByRate }
    ensures twins { TwinsByRate }
    ensures lists { ListsFirst }
    ensures picks { Picks }
    ensures in_time { CrashesInTime }
{}

/// How a session with one invocation stands, and what is counted as crashes and as marks.
pub fn worked_standings()
    ensures abandoned { Abandons }
    ensures stays_open { StaysOpen }
    ensures ended { Ends }
    ensures counted { CrashesAndMarks }
{}
