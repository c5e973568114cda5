//! What a provider says of itself, by the table of its fields.

ghost use Rattle.std.specs.Prelude.{◌≡◌, [], option_map};
ghost use Rattle.oidc_members.specs.Answers.{Answers};
ghost use Rattle.oidc_readers.specs.Slots.{slot};
ghost use Rattle.oidc_discovery.specs.Metadata as spec;
ghost use Rattle.oidc_discovery.specs.Metadata.{needed_fields_of, metadata_of};
ghost use Rattle.oidc_discovery.specs.MetadataFields.{metadata_fields};

use oidc_members::{Member, Members, ParseError, Reading};
use oidc_readers::{MemberReader, Once, Texts, read_fields};
use oidc_types::{
    AuthUrl, EndSessionUrl, IssuerUrl, JsonWebKeySetUrl, Marker, Text, TokenUrl, UserInfoUrl,
};
use std::alloc::Global;
use std::marker::Model;

/// The name of a word that a provider lists.
#[derive(Drop)]
pub struct ListedMarker;

impl Marker for ListedMarker {
    ghost use Rattle.std.specs.Prelude.{codes};

    ghost name = { codes "Listed" };

    fn name() -> &'static str {
        "Listed"
    }
}

// The fields that have to be there.
#[derive(Drop)]
pub(crate) struct Needed {
    pub(crate) issuer: IssuerUrl,
    pub(crate) authorization_endpoint: AuthUrl,
    pub(crate) jwks_uri: JsonWebKeySetUrl,
    pub(crate) signing_algorithms: Vec<Text<ListedMarker>>,
}

impl Model for Needed {
    ghost use Rattle.oidc_discovery.specs.Metadata.{SeenNeeded};
    ghost use Rattle.oidc_discovery.specs.Codes.{needed_fields_code};

    ghost Value = { SeenNeeded };

    ghost coded = { needed_fields_code };

    ghost view = { λ n. record {
      issuer = n.issuer;
      authorization_endpoint = n.authorization_endpoint;
      jwks_uri = n.jwks_uri;
      signing_algorithms = n.signing_algorithms.items;
    } };
}

// What the members say, not judged yet.
#[derive(Drop)]
pub(crate) struct Metadata {
    pub(crate) needed: Needed,
    pub(crate) token_endpoint: Option<TokenUrl>,
    pub(crate) userinfo_endpoint: Option<UserInfoUrl>,
    pub(crate) end_session_endpoint: Option<EndSessionUrl>,
    pub(crate) challenge_methods: Option<Vec<Text<ListedMarker>>>,
    pub(crate) iss_parameter: Option<bool>,
}

impl Model for Metadata {
    ghost use Rattle.std.specs.Prelude.{option_map};
    ghost use Rattle.oidc_discovery.specs.Metadata.{SeenMetadata};
    ghost use Rattle.oidc_discovery.specs.Codes.{metadata_code};

    ghost Value = { SeenMetadata };

    ghost coded = { metadata_code };

    ghost view = { λ m. record {
      needed = m.needed;
      token_endpoint = m.token_endpoint;
      userinfo_endpoint = m.userinfo_endpoint;
      end_session_endpoint = m.end_session_endpoint;
      challenge_methods = option_map (λ methods. methods.items) m.challenge_methods;
      iss_parameter = m.iss_parameter;
    } };
}

// The fields, as they are read.
#[derive(Drop)]
pub(crate) struct MetadataFields {
    issuer: Once<IssuerUrl>,
    authorization_endpoint: Once<AuthUrl>,
    token_endpoint: Once<Option<TokenUrl>>,
    userinfo_endpoint: Once<Option<UserInfoUrl>>,
    jwks_uri: Once<JsonWebKeySetUrl>,
    signing_algorithms: Once<Texts<ListedMarker>>,
    end_session_endpoint: Once<Option<EndSessionUrl>>,
    challenge_methods: Once<Option<Texts<ListedMarker>>>,
    iss_parameter: Once<Option<bool>>,
}

impl MetadataFields {
    #[tactic(auto, unfolding(oidc_readers::specs::Slots::slot))]
    fn new() -> Self
        ensures { result ≡ metadata_fields [] }
    {
        MetadataFields {
            issuer: Once::new(),
            authorization_endpoint: Once::new(),
            token_endpoint: Once::new(),
            userinfo_endpoint: Once::new(),
            jwks_uri: Once::new(),
            signing_algorithms: Once::new(),
            end_session_endpoint: Once::new(),
            challenge_methods: Once::new(),
            iss_parameter: Once::new(),
        }
    }
}

impl MemberReader for MetadataFields {
    ghost fault = { λ _. spec.metadata_rule };

    ghost state = { λ _. metadata_fields };

    fn take(
        &mut self,
        alloc: Global,
        member: &Member,
        _reading: Reading,
    ) -> Result<(), ParseError> {
        self.issuer
            .take(alloc, "issuer", member)
            .and(
                self.authorization_endpoint
                    .take(alloc, "authorization_endpoint", member),
            )
            .and(self.token_endpoint.take(alloc, "token_endpoint", member))
            .and(
                self.userinfo_endpoint
                    .take(alloc, "userinfo_endpoint", member),
            )
            .and(self.jwks_uri.take(alloc, "jwks_uri", member))
            .and(
                self.signing_algorithms
                    .take(alloc, "id_token_signing_alg_values_supported", member),
            )
            .and(
                self.end_session_endpoint
                    .take(alloc, "end_session_endpoint", member),
            )
            .and(
                self.challenge_methods
                    .take(alloc, "code_challenge_methods_supported", member),
            )
            .and(
                self.iss_parameter.take(
                    alloc,
                    "authorization_response_iss_parameter_supported",
                    member,
                ),
            )
    }
}

// The slots of the fields that have to be there.
#[derive(Drop)]
struct NeededFields {
    issuer: Once<IssuerUrl>,
    authorization_endpoint: Once<AuthUrl>,
    jwks_uri: Once<JsonWebKeySetUrl>,
    signing_algorithms: Once<Texts<ListedMarker>>,
}

// The fields that have to be there.
#[tactic(auto, unfolding(crate::specs::Metadata::needed_fields_of, oidc_readers::specs::Slots::slot))]
fn needed_in(alloc: Global, fields: NeededFields, _members: &Members) -> Result<Needed, ParseError>
    requires issuer { fields.issuer ≡ slot spec.issuer _members.now.list }
    requires authorization_endpoint { fields.authorization_endpoint
        ≡ slot spec.authorization_endpoint _members.now.list }
    requires jwks_uri { fields.jwks_uri ≡ slot spec.jwks_uri _members.now.list }
    requires signing_algorithms { fields.signing_algorithms
        ≡ slot spec.signing_algorithms _members.now.list }
    ensures { Answers (needed_fields_of _members.now.list) result }
{
    let issuer = fields.issuer.required(alloc, "issuer")?;
    let authorization_endpoint = fields
        .authorization_endpoint
        .required(alloc, "authorization_endpoint")?;
    let jwks_uri = fields.jwks_uri.required(alloc, "jwks_uri")?;
    let signing_algorithms = fields
        .signing_algorithms
        .required(alloc, "id_token_signing_alg_values_supported")?;
    Ok(Needed {
        issuer,
        authorization_endpoint,
        jwks_uri,
        signing_algorithms: signing_algorithms.into_vec(),
    })
}

// The texts of a list, where there is one.
fn listed(texts: Option<Texts<ListedMarker>>) -> Option<Vec<Text<ListedMarker>>>
    ensures { option_map (λ list. list.items) result ≡ texts }
{
    match texts {
        None => None,
        Some(texts) => Some(texts.into_vec()),
    }
}

// What these members say.
#[tactic(auto, unfolding(crate::specs::Metadata::metadata_of, oidc_readers::specs::Slots::slot))]
pub(crate) fn metadata_in(alloc: Global, members: &Members) -> Result<Metadata, ParseError>
    ensures { Answers (metadata_of members.now.list) result }
{
    let MetadataFields {
        issuer,
        authorization_endpoint,
        token_endpoint,
        userinfo_endpoint,
        jwks_uri,
        signing_algorithms,
        end_session_endpoint,
        challenge_methods,
        iss_parameter,
    } = read_fields(alloc, MetadataFields::new(), members)?;
    let fields = NeededFields {
        issuer,
        authorization_endpoint,
        jwks_uri,
        signing_algorithms,
    };
    let needed = needed_in(alloc, fields, members)?;
    Ok(Metadata {
        needed,
        token_endpoint: token_endpoint.optional(),
        userinfo_endpoint: userinfo_endpoint.optional(),
        end_session_endpoint: end_session_endpoint.optional(),
        challenge_methods: listed(challenge_methods.optional()),
        iss_parameter: iss_parameter.optional(),
    })
}
