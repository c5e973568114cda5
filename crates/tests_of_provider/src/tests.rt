//! Logins over doubles of providers are run.

mod by_body;
mod first;
mod many_logins;
mod parties;
mod two_providers;
