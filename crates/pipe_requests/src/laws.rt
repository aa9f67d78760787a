//! What holds of every line, as a call that does nothing and says it in its clause.

ghost use Rattle.pipe_requests.specs.Meaning.{OneMeaning};

/// A line asks for one thing, or is bad for one reason, and never both.
pub fn one_meaning()
    ensures { OneMeaning }
{}
