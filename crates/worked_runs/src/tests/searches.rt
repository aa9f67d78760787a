//! Worked examples of the search for periods.

mod found;
mod refused;
mod searched;
