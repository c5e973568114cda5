//! A caller of the provider double that is proved to meet all premises of `oidc_provider::sign_in` at once, from literals
//! ([`first_login`]), and its test. No crate stands on this one.
#![tactic(auto)]

mod errors;
mod literals;
#[cfg(test)]
mod tests;

pub use errors::FirstLoginError;
pub use literals::{User, first_login};
