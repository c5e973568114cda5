//! Tests of oidc_login that no line of `vectors_logins` can say: logins over transports that fail (a closure, one of the
//! test's own, one in memory), begins with requests of other clients and flows, very many logins that pend at once;
//! very many sessions, with logouts among them; logins and logout tokens under public keys and secrets; and a device login
//! over a transport that has no memory at a poll.
//!
//! The transports are the crate's only items outside of its tests, since their trait has laws: their contract is that of
//! the trait. No crate stands on this one.
#![tactic(auto)]

#[cfg(test)]
mod devices;
#[cfg(test)]
mod login;
#[cfg(test)]
mod logout_keys;
#[cfg(test)]
mod many_logins;
#[cfg(test)]
mod many_sessions;
#[cfg(test)]
mod provider_logins;
pub mod transports;
