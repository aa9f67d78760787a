//! What no clause says of the readers of rules and of pattern files and of the writers of patterns
//! and pictures: worked examples of their texts, pictures whose files were made by a program in
//! Python, and a sink that fails. The crate holds only tests.
#![tactic(auto)]

#[cfg(test)]
mod tests;
