//! The one line that tells why the program ended.

ghost use Rattle.std.specs.Prelude.{◌≡◌, OnErr, OnOk};
ghost use Rattle.ciel_io.specs.Faults.{HasRisen};
ghost use Rattle.ciel_io.specs.Tells.{Tells, TellsPart};
ghost use Rattle.ciel_look_run.specs.Told.{message_of};

use crate::ends::Why;
use ciel_io::pieces::put_all;
use ciel_io::sink::{Failed, Sink};
use itoa::Buffer;

/// Puts the message of an end, one line with its line feed; nothing where what was asked was written.
///
/// Answers `Failed` only where the count of faults of the log rose, and a first part of the message was written.
pub fn put_message<J: Sink>(why: &Why, log: &mut J) -> Result<(), Failed>
    ensures written { OnOk result (Tells (J.written log.old) (J.written log.new) (message_of why.now)) }
    ensures part { OnErr result (TellsPart (J.written log.old) (J.written log.new) (message_of why.now)) }
    ensures cause { OnErr result (HasRisen (J.faults log.old) (J.faults log.new)) }
{
    match why {
        Why::Done => put_all(log, &[]),
        Why::Usage => put_all(log, &["look: usage: look LOG [--why NAME | --svg]\n"]),
        Why::ReadFault { path } => put_all(log, &["look: read fault ", path.as_str(), "\n"]),
        Why::TooLong { path } => put_all(log, &["look: too long ", path.as_str(), " 268435456\n"]),
        Why::NotLog { path, at } => {
            let mut digits = Buffer::new();
            put_all(
                log,
                &[
                    "look: not a log ",
                    path.as_str(),
                    " at byte ",
                    digits.format(*at),
                    "\n",
                ],
            )
        }
        Why::NoTask { digits } => put_all(log, &["look: no task ", digits.as_str(), "\n"]),
        Why::WriteFault => put_all(log, &["look: write fault\n"]),
        Why::Memory => put_all(log, &["look: no memory\n"]),
    }
}
