//! What holds of all scales, as a call that does nothing and says it in its clause.

ghost use Rattle.pattern_picture.specs.Scale.{OneScale};

/// A rectangle has one scale for each size that a picture of it may have.
pub fn one_scale()
    ensures { OneScale }
{}
