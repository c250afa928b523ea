//! The lines of a report, by examples.

ghost use Rattle.session_report.specs.Shown.{FailureText, Lines, TotalsLine, WholeReport};

/// What the lines of a report are, and a whole one.
pub fn worked_report()
    ensures failure { FailureText }
    ensures lines { Lines }
    ensures totals { TotalsLine }
    ensures whole { WholeReport }
{}
