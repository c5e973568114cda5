//! The first login is run.

use crate::literals::first_login;
use std::alloc::{AllocError, Global};

// Who is signed in: the subjects of the ID token and of user info.
fn subjects(alloc: Global) -> Result<String, AllocError> {
    let Ok(user) = first_login(alloc) else {
        return String::from_str(alloc, "nobody");
    };
    let mut subjects = String::from_str(alloc, user.claims().subject().as_str())?;
    if let Some(info) = user.user_info() {
        subjects.push_str(" ")?;
        subjects.push_str(info.subject().as_str())?;
    }
    Ok(subjects)
}

#[test]
fn first_login_signs_in(rt: HostRuntime) {
    let subjects = subjects(rt.alloc()).expect(&rt, "memory");
    assert_eq!(rt; subjects.as_str(), "u1 u1");
}
