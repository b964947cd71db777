//! The grammar of commands and their reading belong together.
ghost use Rattle.rio_step.specs.CommandLaws.{CommandPlacesAreTold, DeclarationPlacesAreTold, LinesAreSpelled, ReadCommandsAreSpelled, SpelledCommandsAreRead};

/// What tokens spell as a command is read as it, wherever they stand, with any blanks between them.
pub fn spelled_commands_are_read()
    ensures { SpelledCommandsAreRead }
{}

/// A command that is read is spelled by the tokens of its line.
pub fn read_commands_are_spelled()
    ensures { ReadCommandsAreSpelled }
{}

/// The place that is told of a line that isn't read is that of its first token that can't stand. Wherever the same tokens
/// stand, in the line of a tree with blanks before the same ones, it is told, whatever stands behind it. The tokens before
/// it, if they are fewer than 2^32, begin a command, in which one bracket more may be open than in a line.
pub fn first_bad_command_tokens_are_told()
    ensures { CommandPlacesAreTold }
{}

/// The place that is told of a text that isn't read as a declaration is that of its first token that can't stand. Wherever
/// it comes next behind the same tokens, its place is told, whatever stands behind it, and the tokens before it, if they are
/// fewer than 2^32, begin a declaration.
pub fn first_bad_class_tokens_are_told()
    ensures { DeclarationPlacesAreTold }
{}

/// Each line of a script that counts is read as the command that its tokens spell, or as a bad line with the place of its
/// first token that can't stand, and it is no other.
pub fn lines_are_spelled()
    ensures { LinesAreSpelled }
{}
