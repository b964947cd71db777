//! What commands do: definitions that contracts cite, in `specs/`, and laws about them.
//!
//! `Refusing` has the first rule that refuses a command, `Step` the state behind it and its reply, `ReplyText` what is said
//! of it, `Runs` the states and the texts of a run. Of these the main laws are `steps_change_one_thing`, `batches_are_puts`,
//! `nothing_is_lost`, `all_stay_fit` and `stays_storable`.
//!
//! `Script` says how a script is read, line by line, with `TreeGrammar` for trees, and `CommandSpelling` which tokens spell
//! a command. `lines_are_spelled` and `first_bad_command_tokens_are_told` tie the two: a line is the command that its
//! tokens spell, or it is bad, with the place of the first token that can't stand.
#![tactic(auto)]

mod command_laws;
mod laws;

pub use command_laws::{
    first_bad_class_tokens_are_told, first_bad_command_tokens_are_told, lines_are_spelled,
    read_commands_are_spelled, spelled_commands_are_read,
};
pub use laws::{
    all_stay_fit, batches_are_puts, classes_stay_declared, each_says_its_reply, lowest_is_told,
    names_stay_apart, nothing_is_lost, runs_end_closed, runs_have_states, scripts_are_statable,
    stays_fillable, stays_storable, steps_change_one_thing, values_stay,
};
