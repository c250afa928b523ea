//! What holds of sequential runs: each function's contract is a law, and it does nothing.

ghost use Rattle.central_model.specs.Laws.{AnswersInOrder};

/// The sequential run is the central run in which the Tasks, in the order of their names, are answered by their functions, with the
/// numbers from 0 on as tickets. So one walk makes it.
pub fn answers_in_order()
    ensures { AnswersInOrder }
{}
