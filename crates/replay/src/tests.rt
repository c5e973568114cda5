//! What no line of the programs of cases can say of the program: objects that fail at one call, a source and a key of the
//! test's own, and scripts at their limits. Other tests of the crates below stand in `tests_below_tokens`,
//! `tests_of_tokens` and `tests_of_logins`.

mod blocks;
mod cuts;
mod program;
mod toy_provider;
