//! Laws of steps and of runs.
ghost use Rattle.rio_step.specs.Laws.{AllStayFit, BatchesTakeAll, ClosedHasNonePending, CyclesCountUp, DeletesTakeOne, EachSaysItsReply, FitsStay, LowestIsTold, NamesStayApart, NothingIsLost, PutsAddOne, RefusedChangesNothing, RepliesSaySomething, RunsBeginAlike, RunsEndClosed, RunsHaveStates, SaidInParts, SavedKeepsTheRest, WrittenStays};
ghost use Rattle.rio_step.specs.Script.{LinesGiveCommands};
ghost use Rattle.rio_step.specs.Storable.{StaysFillable, StaysStorable};
ghost use Rattle.rio_step.specs.Statable.{ClassesStayDeclared, ScriptsAreStatable};

/// Of several refusals that hold the one of the lowest number is told, and none is told where none holds.
pub fn lowest_is_told()
    ensures { LowestIsTold }
{}

/// A refused command changes nothing. A put that isn't refused adds its object, in a cycle where nothing was, and changes
/// nothing else. A delete takes its object away, or its tree with all rows, and changes nothing else.
pub fn steps_change_one_thing()
    ensures refused { RefusedChangesNothing }
    ensures put { PutsAddOne }
    ensures delete { DeletesTakeOne }
{}

/// A batch that isn't refused leaves what its puts leave one after the other, none of which is refused. So its objects get
/// the cycles that they would get one put after the other: those of the name that are put before are counted.
pub fn batches_are_puts()
    ensures cycles { CyclesCountUp }
    ensures all { BatchesTakeAll }
{}

/// No command but a delete takes an object or a row away, or changes one.
pub fn nothing_is_lost()
    ensures { NothingIsLost }
{}

/// With one class more a value that fits still fits, and what is written for it is the same.
pub fn values_stay()
    ensures fits { FitsStay }
    ensures written { WrittenStays }
{}

/// If every object fits its class and every row its tree, they do so behind any command: also behind a declaration.
pub fn all_stay_fit()
    ensures { AllStayFit }
{}

/// If the classes of a state are such as class commands have declared from no classes on, they are so behind any command
/// that a script can state.
pub fn classes_stay_declared()
    ensures { ClassesStayDeclared }
{}

/// The state of a file that isn't made yet is one that a file can hold, and so is the state behind any command that a script
/// can state: names, cycles, classes, objects and trees are as a file has them, and pass no limit.
pub fn stays_storable()
    ensures { StaysStorable }
{}

/// If the trees of a state can be filled, whatever else another program has written, so can those of the state after any
/// command that a script can state.
pub fn stays_fillable()
    ensures { StaysFillable }
{}

/// If no name is that of an object and of a tree, no command makes one so.
pub fn names_stay_apart()
    ensures { NamesStayApart }
{}

/// A run says one reply for each command, in order, and each reply says something. What it says begins with what its first
/// commands say.
pub fn each_says_its_reply()
    ensures each { EachSaysItsReply }
    ensures parts { SaidInParts }
    ensures something { RepliesSaySomething }
{}

/// A run has a state at its start, one behind each command and one behind each closing save. Those behind the first
/// commands are the same whatever follows.
pub fn runs_have_states()
    ensures states { RunsHaveStates }
    ensures front { RunsBeginAlike }
{}

/// In the last state of a run all pending rows are saved. A state without its pending rows has the same trees, each without
/// its own.
pub fn runs_end_closed()
    ensures last { RunsEndClosed }
    ensures closed { ClosedHasNonePending }
    ensures saved { SavedKeepsTheRest }
{}

/// A script has one command for each line that counts. Each can be stated: its names are such as objects and trees have,
/// and the class that it declares and the branches that it lists are such as a line can give.
pub fn scripts_are_statable()
    ensures lines { LinesGiveCommands }
    ensures statable { ScriptsAreStatable }
{}
