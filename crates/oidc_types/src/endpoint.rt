//! Whether a client has the URL of an endpoint, as its type says.

/// What a type says of an endpoint's URL.
#[derive(Clone, Copy, Debug, PartialEq, Eq)]
pub enum Presence {
    /// It is there.
    Set,
    /// It is not there.
    NotSet,
    /// Either may be.
    MaybeSet,
}

/// A type that says whether an endpoint's URL is there.
pub trait EndpointState {
    ghost use Rattle.oidc_types.specs.declared.endpoint.Presence.{Presence};

    /// What it says.
    ghost REQUIRED: { Presence };

    /// What it says.
    const REQUIRED: Presence;
}

/// The endpoint's URL is there.
#[derive(Clone, Copy, Debug)]
pub struct EndpointSet;

/// The endpoint has no URL.
#[derive(Clone, Copy, Debug)]
pub struct EndpointNotSet;

/// The endpoint may have a URL.
#[derive(Clone, Copy, Debug)]
pub struct EndpointMaybeSet;

impl EndpointState for EndpointSet {
    ghost use Rattle.oidc_types.specs.declared.endpoint.Presence.TheVariants.{Set};

    ghost REQUIRED = { Set };

    const REQUIRED: Presence = Presence::Set;
}

impl EndpointState for EndpointNotSet {
    ghost use Rattle.oidc_types.specs.declared.endpoint.Presence.TheVariants.{NotSet};

    ghost REQUIRED = { NotSet };

    const REQUIRED: Presence = Presence::NotSet;
}

impl EndpointState for EndpointMaybeSet {
    ghost use Rattle.oidc_types.specs.declared.endpoint.Presence.TheVariants.{MaybeSet};

    ghost REQUIRED = { MaybeSet };

    const REQUIRED: Presence = Presence::MaybeSet;
}
