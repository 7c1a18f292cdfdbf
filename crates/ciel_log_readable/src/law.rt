//! The law of logs that can be read.

ghost use Rattle.ciel_log_readable.specs.Readable.{BeginningsAreRead, LogsAreReadable};

/// Of a job whose script is that of some bytes, by names of 20 or 32 bytes: each record of a log of a run of it can be read, where each has a
/// length of four bytes, and the log one of eight. So what begins such a log can be gone on from.
pub fn logs_are_readable()
    ensures read { LogsAreReadable }
    ensures begun { BeginningsAreRead }
{}
