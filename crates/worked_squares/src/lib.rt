//! What no clause says of cells, squares and the words of their table: worked examples of the
//! calls, computed apart from this program, and memory that fails. The crate holds only tests.
#![tactic(auto)]

#[cfg(test)]
mod tests;
