//! Worked examples of runs.

mod accepted;
mod bad_files;
mod cut;
mod devices;
mod ended;
mod full_squares;
mod full_tables;
mod last;
mod macrocell;
mod nodes;
mod pictures;
mod plans;
mod refused;
mod rows;
mod searches;
mod sessions;
mod sessions_in_want_of_memory;
mod short_writes;
mod sources;
mod want_of_memory;
mod workers;
