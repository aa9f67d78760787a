//! What holds of the periods of all planes, as calls that do nothing and say it in their clauses.

ghost use Rattle.periods.specs.Laws.{EmptyPlane, ExactlyMultiples, LaterGenerations, LeastDivides, MovedPlane, Multiples, NoPeriodNoDivisor, OneDisplacement, PeriodsAdd, SamePlane};

/// A period has one displacement only, where some cells are live and a list can name them all.
pub fn one_displacement()
    ensures { OneDisplacement }
{}

/// Two periods make a third: their generations are added, and so are their displacements.
pub fn periods_add()
    ensures { PeriodsAdd }
{}

/// Each multiple of a period is a period, with as many times its displacement.
pub fn multiples()
    ensures { Multiples }
{}

/// Each period is a multiple of the least.
pub fn least_divides()
    ensures { LeastDivides }
{}

/// The periods and their displacements are exactly the multiples of the least and of its
/// displacement, where some cells are live and a list can name them all.
pub fn exactly_multiples()
    ensures { ExactlyMultiples }
{}

/// By each rule with no birth on zero, the least period of a plane with no live cell is 1, and
/// nothing moves.
pub fn empty_plane()
    ensures { EmptyPlane }
{}

/// Where so many generations, one or more, are no period, no divisor of them is one.
pub fn no_period_no_divisor()
    ensures { NoPeriodNoDivisor }
{}

/// A plane that is moved keeps its periods and their displacements, and planes with the same cells
/// have the same ones.
pub fn moved_plane()
    ensures moved { MovedPlane }
    ensures same { SamePlane }
{}

/// A plane's periods are periods of each of its later generations, with the same displacements.
pub fn later_generations()
    ensures { LaterGenerations }
{}
