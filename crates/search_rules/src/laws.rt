//! Laws of searches: what fixes their logs and their answers.

ghost use Rattle.search_rules.specs.Answered.{AnswersOnce, OneAnswerOfLog};
ghost use Rattle.search_rules.specs.Solved.{OneAnswer, OneLog, OneStage};

/// One legal log, whatever its order, comes to one stage.
pub fn one_stage()
    ensures { OneStage }
{}

/// Two logs in depth order of one length are the same, and come to one stage.
pub fn one_log()
    ensures { OneLog }
{}

/// The budget and the nodes fix the log in depth order, and whether it is complete, out of steps, or at which place wide.
pub fn one_answer()
    ensures { OneAnswer }
{}

/// Whatever its order, one log has one answer.
pub fn one_answer_of_log()
    ensures { OneAnswerOfLog }
{}

/// The budget and the meaning of the nodes fix the log in depth order and its answer.
pub fn answers_once()
    ensures { AnswersOnce }
{}
