//! Laws of paths. Each function's contract is a law, and it does nothing.

ghost use Rattle.asl_paths.specs.Laws.{PathsReadBack, PutIsFound, PutKeepsOthers};

/// What was put at a path is found there.
pub fn put_is_found()
    ensures { PutIsFound }
{}

/// A path that parts from the one that is put at, so that neither goes on from the other, finds what it found before.
pub fn put_keeps_others()
    ensures { PutKeepsOthers }
{}

/// The canonical text of a path reads as the path.
pub fn paths_read_back()
    ensures { PathsReadBack }
{}
