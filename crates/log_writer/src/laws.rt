//! The law of logs and their texts.

ghost use Rattle.log_writer.specs.Laws.{OneLog};

/// Two logs with one text are one log.
pub fn one_log()
    ensures { OneLog }
{}
