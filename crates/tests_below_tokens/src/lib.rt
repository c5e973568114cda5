//! Tests of the libraries up to oidc_oauth2 that no line of `vectors` can say, but for those of transports, which stand
//! in `replay`: a type of the test's own behind a trait, very many of something, copies, and what is drawn from a
//! generator.
//!
//! Types of the test's own whose trait has laws are the crate's only items outside of its tests: their contracts are
//! those of the trait.
#![tactic(auto)]

#[cfg(test)]
mod claims;
pub mod disclosure;
pub mod few;
#[cfg(test)]
mod members;
#[cfg(test)]
mod random_texts;
#[cfg(test)]
mod responses;
pub mod scheme;
#[cfg(test)]
mod types;
#[cfg(test)]
mod vocabularies;
