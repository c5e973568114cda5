//! A provider's document, judged.

ghost use Rattle.std.specs.Prelude.{◌≡◌, false, unwrap_or, IfOk};
ghost use Rattle.std.specs.List.{list_any};
ghost use Rattle.std.specs.Option.{option_copied};
ghost use Rattle.std.specs.Str.{bytes_eq};
ghost use Rattle.oidc_members.specs.Answers.{Answers};
ghost use Rattle.oidc_discovery.specs.Documents as spec;
ghost use Rattle.oidc_discovery.specs.Pinned as pin;

use crate::errors::{DocumentError, MetadataUrl};
use crate::metadata::{ListedMarker, Metadata, metadata_in};
use crate::requests::KeySetRequest;
use crate::urls::{UrlFault, fault_if_there, issuer_fault, url_fault};
use oidc_members::{Members, ParseError};
use oidc_types::{
    AuthUrl, ClosedVocabulary, CoreJwsSigningAlgorithm, EndSessionUrl, IssuerUrl, JsonWebKeySetUrl,
    Text, TokenUrl, UserInfoUrl,
};
use std::alloc::Global;
use std::marker::Model;

/// What a provider says of itself, where its issuer is the one that was asked for, and its URLs are
/// ones that are taken. Contracts see its fields.
#[derive(Drop)]
pub struct ProviderDocument {
    pub(crate) said: Metadata,
}

impl Model for ProviderDocument {
    ghost use Rattle.oidc_discovery.specs.Metadata.{SeenMetadata};
    ghost use Rattle.oidc_discovery.specs.Codes.{metadata_code};

    ghost Value = { SeenMetadata };

    ghost coded = { metadata_code };

    ghost view = { λ d. d.said };
}

impl From<ParseError> for DocumentError {
    ghost use Rattle.std.specs.Prelude.{◌≡◌};
    ghost use Rattle.oidc_discovery.specs.Documents.{of_parse_error};

    ghost from_gives = { λ parse error. error ≡ of_parse_error parse };

    fn from(error: ParseError) -> DocumentError {
        match error {
            ParseError::Refused(refusal) => DocumentError::Parse(refusal),
            ParseError::Memory => DocumentError::Memory,
        }
    }
}

// A refusal for what stands against a URL, where something does.
fn unless_faulty(url: MetadataUrl, fault: Option<UrlFault>) -> Result<(), DocumentError>
    ensures { result ≡ spec.unless_faulty url fault }
{
    match fault {
        None => Ok(()),
        Some(fault) => Err(DocumentError::Url(url, fault)),
    }
}

// Whether one of these texts is this one.
fn has_text(texts: &[Text<ListedMarker>], text: &str) -> bool
    ensures { result ≡ list_any (λ listed. bytes_eq listed text.now) texts.now }
{
    texts.iter().any(|listed| listed.as_str() == text)
}

// Whether methods of challenges are listed, and S256 isn't among them.
fn lacks_s256(methods: Option<&[Text<ListedMarker>]>) -> bool
    ensures { result ≡ spec.lacks_s256 (option_copied methods.entry) }
{
    match methods {
        None => false,
        Some(methods) => !has_text(methods, "S256"),
    }
}

impl Metadata {
    fn challenge_methods(&self) -> Option<&[Text<ListedMarker>]>
        ensures { option_copied result ≡ self.now.challenge_methods }
    {
        match &self.challenge_methods {
            None => None,
            Some(methods) => Some(methods.as_slice()),
        }
    }

    // Why one of its URLs isn't taken, the first of the table.
    fn check_urls(&self) -> Result<(), DocumentError>
        ensures { result ≡ spec.urls_checked self.now }
    {
        let needed = &self.needed;
        unless_faulty(MetadataUrl::Issuer, issuer_fault(&needed.issuer))?;
        unless_faulty(
            MetadataUrl::AuthorizationEndpoint,
            url_fault(&needed.authorization_endpoint),
        )?;
        unless_faulty(
            MetadataUrl::TokenEndpoint,
            fault_if_there(self.token_endpoint.as_ref()),
        )?;
        unless_faulty(
            MetadataUrl::UserinfoEndpoint,
            fault_if_there(self.userinfo_endpoint.as_ref()),
        )?;
        unless_faulty(MetadataUrl::JwksUri, url_fault(&needed.jwks_uri))?;
        unless_faulty(
            MetadataUrl::EndSessionEndpoint,
            fault_if_there(self.end_session_endpoint.as_ref()),
        )
    }

    // Why it isn't what was asked for.
    #[tactic(auto, unfolding(crate::specs::Documents::checked))]
    fn check(&self, asked: &IssuerUrl) -> Result<(), DocumentError>
        ensures { result ≡ spec.checked asked.now.text self.now }
    {
        if self.needed.issuer.as_str() != asked.as_str() {
            return Err(DocumentError::OtherIssuer);
        }
        self.check_urls()?;
        if lacks_s256(self.challenge_methods()) {
            return Err(DocumentError::ChallengeMethods);
        }
        Ok(())
    }
}

// What a text says, by the table.
fn metadata_of(alloc: Global, text: &[u8]) -> Result<Metadata, ParseError>
    ensures { Answers (spec.metadata_in_text text.now) result }
{
    let members = Members::split(alloc, text)?;
    metadata_in(alloc, &members)
}

impl ProviderDocument {
    /// Reads the document of the provider whose issuer was asked for. Refused is, by the first of these
    /// that holds: `Parse` a text that is no object, or whose members aren't of their kinds, repeat or
    /// are missing; `OtherIssuer` one whose `issuer` isn't the text of `asked`, byte for byte; `Url` one
    /// with a URL that isn't taken, in the order of the table; `ChallengeMethods` one that lists methods
    /// without `S256`. Members of other names are left aside, and a null counts as absent
    /// where the member may be.
    #[tactic(auto, unfolding(crate::specs::Documents::document_of))]
    pub fn read(
        alloc: Global,
        asked: &IssuerUrl,
        text: &[u8],
    ) -> Result<ProviderDocument, DocumentError>
        ensures read { spec.IsReadFor asked.now.text text.now result }
        // What holds of each document that is taken.
        ensures taken { IfOk result (λ said. spec.IsTaken asked.now.text said) }
    {
        let said = metadata_of(alloc, text)?;
        match said.check(asked) {
            Ok(()) => Ok(ProviderDocument { said }),
            Err(error) => {
                drop(said);
                Err(error)
            }
        }
    }

    /// The issuer.
    pub fn issuer(&self) -> &IssuerUrl
        ensures issuer { result.now ≡ self.now.needed.issuer }
    {
        &self.said.needed.issuer
    }

    /// The authorization endpoint.
    pub fn authorization_endpoint(&self) -> &AuthUrl
        ensures endpoint { result.now ≡ self.now.needed.authorization_endpoint }
    {
        &self.said.needed.authorization_endpoint
    }

    /// The token endpoint, where there is one.
    pub fn token_endpoint(&self) -> Option<&TokenUrl>
        ensures endpoint { option_copied result ≡ self.now.token_endpoint }
    {
        self.said.token_endpoint.as_ref()
    }

    /// The user info endpoint, where there is one.
    pub fn userinfo_endpoint(&self) -> Option<&UserInfoUrl>
        ensures endpoint { option_copied result ≡ self.now.userinfo_endpoint }
    {
        self.said.userinfo_endpoint.as_ref()
    }

    /// Where the provider's keys are published.
    pub fn jwks_uri(&self) -> &JsonWebKeySetUrl
        ensures uri { result.now ≡ self.now.needed.jwks_uri }
    {
        &self.said.needed.jwks_uri
    }

    /// The request for the set of keys that is published there, and for no other one.
    pub fn key_set_request(&self) -> KeySetRequest<'_>
        ensures uri { result ≡ self.now.needed.jwks_uri }
    {
        KeySetRequest::new(self.jwks_uri())
    }

    /// The endpoint where users sign out, where there is one.
    pub fn end_session_endpoint(&self) -> Option<&EndSessionUrl>
        ensures endpoint { option_copied result ≡ self.now.end_session_endpoint }
    {
        self.said.end_session_endpoint.as_ref()
    }

    /// Whether the provider says that it signs ID tokens by an algorithm.
    pub fn lists(&self, algorithm: CoreJwsSigningAlgorithm) -> bool
        ensures lists { result ≡ pin.lists self.now algorithm }
    {
        has_text(
            self.said.needed.signing_algorithms.as_slice(),
            algorithm.as_ref(),
        )
    }

    /// The texts of the algorithms by which ID tokens are signed, as they are listed.
    pub fn signing_algorithms(&self) -> &[Text<ListedMarker>]
        ensures algorithms { result.now ≡ self.now.needed.signing_algorithms }
    {
        self.said.needed.signing_algorithms.as_slice()
    }

    /// The methods of PKCE challenges, where they are listed.
    pub fn challenge_methods(&self) -> Option<&[Text<ListedMarker>]>
        ensures methods { option_copied result ≡ self.now.challenge_methods }
    {
        self.said.challenge_methods()
    }

    /// Whether the answers at the redirect name the issuer (`iss`, RFC 9207 section 3), where that is said.
    pub fn iss_parameter(&self) -> Option<bool>
        ensures parameter { result ≡ self.now.iss_parameter }
    {
        self.said.iss_parameter
    }

    /// Whether the answers at the redirect name the issuer (`iss`, RFC 9207 section 2). Where they do, a
    /// site takes none without it.
    pub fn names_issuer_in_answers(&self) -> bool
        ensures parameter { result ≡ unwrap_or self.now.iss_parameter false }
    {
        match self.said.iss_parameter {
            Some(flag) => flag,
            None => false,
        }
    }
}
