// The commands before a family is chosen, and the choice.
ghost use Rattle.line.specs.Beginnings.{Begun};
ghost use Rattle.line.specs.Outputs.{HasRoom};

use crate::choice::chosen_family;
use crate::commands::Commands;
use crate::output::Output;
use crate::refusal::{Refusal, SessionFault};
use families::FamilyName;

// Refuses every command until one chooses a family.
pub(crate) fn until_choice(commands: &mut Commands, output: &mut Output) -> Option<FamilyName>
    requires { HasRoom commands.old output.old }
    ensures { Begun commands.old commands.new output.old output.new result }
{
    while let Some((place, read)) = commands.next() {
        match read {
            Ok(command) => match chosen_family(command) {
                Some(family) => return Some(family),
                None => output.respond(place, Err(Refusal::Session(SessionFault::Choice))),
            },
            Err(fault) => output.respond(place, Err(Refusal::Line(fault))),
        }
    }
    None
}
