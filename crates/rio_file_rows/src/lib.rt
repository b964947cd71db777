//! Rows of calls on files in memory whose results no file shows: the place of a record in a chain (`rio_chain`), and commands that are
//! refused without printing (`rio_session`). It has nothing but `rows`, and nothing stands on it: a crate is proved again with its
//! tests, and these crates are dear to prove.
#![tactic(auto)]

#[cfg(test)]
mod rows;
