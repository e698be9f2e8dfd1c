// The commands of a line, once a family was chosen.
ghost use Rattle.std.specs.Prelude.{None as Nothing};
ghost use Rattle.line.specs.Lines.{answers_from};
ghost use Rattle.line.specs.Outputs.{HasRoom, Writes};
ghost use Rattle.line.specs.Standing.{state_at};

use crate::commands::Commands;
use crate::output::Output;
use crate::refusal::Refusal;
use crate::session::{Desk, Session};
use families::Family;
use pads::PadSource;

// Obeys what is left of a line. A fault is answered, and ends it, so it is no `?`.
pub(crate) fn serve<F: Family, S: PadSource + Drop>(
    desk: Desk<S>,
    commands: Commands,
    output: &mut Output,
)
    requires { HasRoom commands output.old }
    ensures { Writes (answers_from F.meaning desk.card commands.entry.line.now commands.entry.at (state_at S.pads desk Nothing)) output.old output.new }
{
    let mut session = Session::<F, S>::new(desk);
    let end = commands.end();
    for (place, read) in commands {
        match read {
            Ok(command) => output.respond(place, session.obey(command)),
            Err(fault) => return output.respond(place, Err(Refusal::Line(fault))),
        }
    }
    output.respond(end, session.finish());
}
