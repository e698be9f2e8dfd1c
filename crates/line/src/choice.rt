// The choice of a family.
ghost use Rattle.std.specs.Prelude.{◌≡◌};
ghost use Rattle.line.specs.Choices.{chosen};
ghost use Rattle.line.specs.Commands.{order_of};

use crate::command::Command;
use families::FamilyName;

// The family that a command chooses.
pub(crate) fn chosen_family(command: Command) -> Option<FamilyName>
    ensures { result ≡ chosen (order_of command.entry) }
{
    match command {
        Command::Choose { family } => FamilyName::try_from(family).ok(),
        _ => None,
    }
}
