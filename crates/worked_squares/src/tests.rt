//! Worked examples of cells, squares and the words of their table.

mod books;
mod cells;
mod copies;
mod futures;
mod kernels;
mod leaves;
mod numbered_squares;
mod orders;
mod places;
mod rows;
mod shades;
mod soup_futures;
mod soups;
mod table_words;
mod views;
mod wide_squares;
