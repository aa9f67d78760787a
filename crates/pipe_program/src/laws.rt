//! What holds of every dialogue, as a call that does nothing and says it in its clause.

ghost use Rattle.pipe_program.specs.Dialogue.{BeginningsAreAnswered};

/// Where the input of a dialogue begins with whole requests, the dialogue begins with their
/// replies, whatever comes behind them.
pub fn beginnings_are_answered()
    ensures { BeginningsAreAnswered }
{}
