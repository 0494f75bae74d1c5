// The start from a rig file.
ghost use Rattle.std.specs.Prelude.{◌≡◌};
ghost use Rattle.host_replies.specs.Told.{refused_file, StartRepliesFrom};

use crate::{Coded, NOTHING, Reply};

// A number: what reading a file answers has the refusal so, and C does too.
fn refused(number: u32, line: u32) -> Coded
    ensures { result ≡ refused_file number line }
{
    let reply = Reply {
        refusal: number,
        line,
        ..NOTHING
    };
    Coded {
        exec: exec::none(),
        reply,
    }
}

pub fn start(file: &[u8]) -> Coded
    ensures { StartRepliesFrom file.now result }
{
    let a = rig_read::read(file);
    if a.no != 0 {
        return refused(a.no as u32, a.line as u32);
    }
    crate::calls::told(exec::start(a.rig, rig::table_of(a.cycles)))
}
