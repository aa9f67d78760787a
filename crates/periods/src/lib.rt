//! What a period of a plane is: after so many generations the plane is what it was, maybe moved.
//! And what holds of all periods.
#![tactic(auto)]

mod laws;

pub use laws::{
    empty_plane, exactly_multiples, later_generations, least_divides, moved_plane, multiples,
    no_period_no_divisor, one_displacement, periods_add,
};
