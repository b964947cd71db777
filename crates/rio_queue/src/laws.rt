//! What holds of every list of steps.
ghost use Rattle.rio_queue.specs.Histories.{NumbersSuffice};
ghost use Rattle.rio_queue.specs.Logs.{HistoryIsLogged, LogGrows, RepliesByLog, TakenInOrder, UnitsKeepRows};

/// The units that were taken are the first of those that were handed over, in order and each once.
pub fn taken_in_order()
    ensures { TakenInOrder }
{}

/// The rows of a filler's units, joined, and then those of its open unit are the rows that it added, in order and each once.
pub fn units_keep_rows()
    ensures { UnitsKeepRows }
{}

/// The log of one step more has the step first, with the reply that it gets after the others.
pub fn log_grows()
    ensures { LogGrows }
{}

/// The history of a list of steps is that of their log: the units of the accepted hands, each with the rows that its filler
/// added since its last accepted hand; how many takes were accepted; the open units.
pub fn history_is_logged()
    ensures { HistoryIsLogged }
{}

/// The reply to a step follows from the log of the steps before it: the lowest number whose condition holds, or what is
/// accepted.
pub fn replies_by_log()
    ensures { RepliesByLog }
{}

/// After fewer than 2^32 steps any step can be done: the next number of each filler has 32 bits.
pub fn numbers_suffice()
    ensures { NumbersSuffice }
{}
