//! Why the first login signs nobody in.

use oidc_provider::SignInError;

/// Why the first login signs nobody in.
#[derive(Drop)]
pub enum FirstLoginError {
    /// There was no memory for what is handed to the provider and to the store.
    Memory,
    /// What the two calls of the login came to: want of memory, or a text that is too long.
    SignIn(SignInError),
}
