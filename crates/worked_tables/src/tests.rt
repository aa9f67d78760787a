//! Worked examples of desks at one table, of its words, of rounds of jobs and of universes.

mod advances;
mod collections;
mod copies;
mod few_words;
mod glider;
mod histories;
mod leaves;
mod ranges;
mod reopened;
mod retries;
mod rounds;
mod searches;
mod sizes;
mod steps;
mod sweeps;
mod tables;
mod threads;
mod two_desks;
mod universes;
mod want_of_memory;
