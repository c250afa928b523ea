//! The world that all instances of all sessions share, its events, and what holds after every list of events.
//!
//! Program and world are defined over any code that instances run (`specs/AnyCode`). State machines as a whole are such code by
//! their sites: tasks, fans with and without limits, retriers and catchers; and so they are by their functions' numbers. Each
//! function's contract is a law of them, and it does nothing. No law asks anything of the machines or the inputs.
#![tactic(auto)]

ghost use Rattle.std.specs.Prelude.{Bool, List, ℕ};
ghost use Rattle.asl_model.specs.Machine.{Block};
ghost use Rattle.world_model.specs.Sites.{Site};
ghost use Rattle.world_model.specs.AnyCode.Queue.{EveryQueueIsRight};
ghost use Rattle.world_model.specs.Agrees.{EveryRunAgrees};
ghost use Rattle.world_model.specs.Asking.{EveryCallIsOne};
ghost use Rattle.world_model.specs.Inputs.{EveryBranchHasInput};
ghost use Rattle.world_model.specs.Collecting.{EveryRunTakesNothingEarly};
ghost use Rattle.world_model.specs.Paced.{EveryRunKeepsPace};
ghost use Rattle.world_model.specs.Steady.{EveryRunEndsAlike};
ghost use Rattle.world_model.specs.Quiet.{EveryQuietSessionHasEnded};
ghost use Rattle.world_model.specs.Drained.{EveryDrainedWorldRests};
ghost use Rattle.world_model.specs.Numbered.{EveryNumberedRunIsSound, EveryRunIsNumbered};
ghost use Rattle.world_model.specs.Flat.{NumbersAreRight, NumbersMap, EveryFlatRunIsSound, EveryRunIsFlat};
ghost use Rattle.world_model.specs.Rows.{OneTask, RetriedTask, Race};

/// Whatever is delivered, repeated, crashed, answered and given up, every checkpoint belongs to one central run of its
/// session, in which each visit of a task answers at most once, with the checkpoint that won; and the outcome of every
/// session that has ended is that run's.
pub fn agreement()
    ensures { EveryRunAgrees }
{}

/// Whatever happens, nothing is collected that a name still reads, and no session's outcome is.
pub fn nothing_taken_early()
    ensures { EveryRunTakesNothingEarly }
{}

/// Whatever happens, no more branches of a fan with a limit run at a time than the limit says.
pub fn keeps_pace()
    ensures { EveryRunKeepsPace }
{}

/// Whatever happens, an attempt that waits for its function has a function to call.
pub fn calls_are_made()
    ensures { EveryCallIsOne }
{}

/// Whatever happens, what a fan saved gives each of its branches its input, while it is there.
pub fn branches_have_inputs()
    ensures { EveryBranchHasInput }
{}

/// Where no function looks at its ticket, whatever happens makes no difference: the outcome of every session that has ended
/// is that of its sequential run, and each of its checkpoints is of a visit of that run, with that visit's answer.
pub fn sequential_outcomes()
    ensures { EveryRunEndsAlike }
{}

/// Whatever happens, a session whose invocations are all acknowledged has ended, and nothing of it is left in the store but
/// its outcome.
pub fn quiet_sessions_end()
    ensures { EveryQuietSessionHasEnded }
{}

/// Where nothing more may happen, no attempt lives, each invocation is acknowledged or given up, and each session has ended
/// and is swept, or an invocation of it was given up.
pub fn drained_worlds_rest()
    ensures { EveryDrainedWorldRests }
{}

/// Whatever happens, and whatever code instances run: an invocation's tries are the number of its attempts, and at most 8, and
/// it counts those of them that live. It is given up only after 8 tries, where none lives and it is not acknowledged. An attempt's
/// steps are its Step and Answer events (an Answer that no function of the table gives changes nothing). An attempt that has
/// acknowledged does not live. Each checkpoint that won has exactly one entry of the journal, and no other name has one. And an
/// attempt that meets a tombstone of its own checkpoint acknowledges next.
pub fn queues_are_right()
    ensures machines { EveryQueueIsRight Block Site (List ℕ) }
    ensures numbers { EveryQueueIsRight Block ℕ (List Bool) }
{}

/// Small machines take as many events, and come to such ends, as is worked out by hand: a task whose function fails, the
/// same with two more tries, and two attempts of one task side by side.
pub fn worked_runs()
    ensures one_task { OneTask }
    ensures retried { RetriedTask }
    ensures race { Race }
{}

/// What holds of worlds of machines holds of each world that runs other code by functions' numbers, where that code does at
/// each number below a bound what the machine does at the site that the number stands for, and leads to such numbers alone; and
/// every list of events that may happen in the world of machines may happen there.
pub fn numbered_worlds()
    ensures sound { EveryNumberedRunIsSound }
    ensures complete { EveryRunIsNumbered }
{}

/// The functions of a machine's table, by their numbers, are its functions as `asl_model` numbers them: the Enter of each scope first,
/// and after these the Tasks and Joins, scope by scope.
pub fn numbers_are_right()
    ensures { NumbersAreRight }
{}

/// Each machine, run by its functions' numbers, does at each number what it does at the site that the number stands for: where its
/// scope stops, what it calls, the Join around it, its limit, the inputs of branches and what their outcomes come to.
pub fn numbers_stand_for_sites()
    ensures { NumbersMap }
{}

/// So what holds of worlds of machines holds of each world that runs its machines by functions' numbers, whatever machines they are,
/// and every list of events that may happen in the world of machines may happen there.
pub fn flat_worlds()
    ensures sound { EveryFlatRunIsSound }
    ensures complete { EveryRunIsFlat }
{}
