//! The law on answers.
ghost use Rattle.promises.specs.Promises.{AnswersKeepPromises};

/// Each answer to a command keeps what the program promises of the command.
pub fn promises_law()
    ensures { AnswersKeepPromises }
{}
