// What the words of the command line ask for.
ghost use Rattle.std.specs.Prelude.{MatchResult};
ghost use Rattle.rangecat.specs.Words.{Names, NoneNamed};

use std::str::FromStr;

#[derive(Clone, Copy, PartialEq, Eq, Debug)]
pub enum Command {
    Help,
    List,
    Dump,
}

// A word that names no command.
#[derive(Clone, Copy, PartialEq, Eq, Debug)]
pub struct UnknownCommand;

impl FromStr for Command {
    type Err = UnknownCommand;

    ghost from_str_gives = { λ word result. MatchResult result (λ c. Names word c) (λ _. NoneNamed word) };

    fn from_str(word: &str) -> Result<Command, UnknownCommand> {
        match word {
            "--help" | "-h" | "help" => Ok(Command::Help),
            "list" => Ok(Command::List),
            "dump" => Ok(Command::Dump),
            _ => Err(UnknownCommand),
        }
    }
}
