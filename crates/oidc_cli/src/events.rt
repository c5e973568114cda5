//! What the lines of a script say.
use jiff::Timestamp;
use oidc_login::UserInfoDemand;
use oidc_members::Reading;
use oidc_oauth2::Answer;
use oidc_types::{
    AuthUrl, ClientId, ClientSecret, CoreJwsSigningAlgorithm, CsrfToken, IssuerUrl,
    JsonWebKeySetUrl, Nonce, PkceCodeVerifier, RedirectUrl, TokenUrl, UserInfoUrl,
};
use std::alloc::{AllocError, AllocFailed};
use std::marker::Model;

/// What a client line says of the client's provider. The issuer also stands for the place of the provider's keys,
/// which are never fetched.
#[derive(Drop)]
pub struct ProviderUrls {
    pub issuer: IssuerUrl,
    pub jwks_uri: JsonWebKeySetUrl,
    pub auth: AuthUrl,
    pub token: TokenUrl,
    pub user_info: Option<UserInfoUrl>,
}

impl Model for ProviderUrls {
    ghost use Rattle.oidc_cli.specs.Events.{SeenProviderUrls};

    ghost Value = { SeenProviderUrls };

    ghost view = { λ u. record {
      issuer = u.issuer;
      auth = u.auth;
      token = u.token;
      user_info = u.user_info;
    } };
}

/// What a client line says.
#[derive(Drop)]
pub struct ClientLine {
    pub id: ClientId,
    pub secret: Option<ClientSecret>,
    pub provider: ProviderUrls,
    pub redirect: Option<RedirectUrl>,
    pub algorithms: Vec<CoreJwsSigningAlgorithm>,
    pub reading: Reading,
}

impl Model for ClientLine {
    ghost use Rattle.oidc_cli.specs.Events.{SeenClientLine};

    ghost Value = { SeenClientLine };

    ghost view = { λ c. record {
      id = c.id;
      secret = c.secret;
      provider = c.provider;
      redirect = c.redirect;
      algorithms = c.algorithms.items;
      reading = c.reading;
    } };
}

/// What a begin line says.
#[derive(Drop)]
pub struct BeginLine {
    pub state: CsrfToken,
    pub nonce: Nonce,
    pub redirect: Option<RedirectUrl>,
    pub verifier: PkceCodeVerifier,
    pub user_info: Option<UserInfoDemand>,
}

/// What a callback line says: the moment, the query, and what the provider answers.
#[derive(Drop)]
pub struct CallbackLine {
    pub now: Timestamp,
    pub query: String,
    pub answers: Vec<Answer>,
}

impl Model for CallbackLine {
    ghost use Rattle.std.specs.Prelude.{map};
    ghost use Rattle.std.specs.String.{string_bytes};
    ghost use Rattle.oidc_oauth2.specs.Recorded.{seen_answer};
    ghost use Rattle.oidc_cli.specs.Events.{SeenCallbackLine};

    ghost Value = { SeenCallbackLine };

    ghost view = { λ c. record {
      now = c.now.nanosecond;
      query = string_bytes c.query;
      answers = map seen_answer c.answers.items;
    } };
}

/// Which of a callback's two requests an answer is for.
#[derive(Clone, Copy, Debug, PartialEq, Eq)]
pub enum AnswerTo {
    /// The token request.
    Token,
    /// The user info request.
    UserInfo,
}

/// What a line of a script says.
#[derive(Drop)]
pub enum Event {
    /// The client that the script is for.
    Client(ClientLine),
    /// A login begins.
    Begin(BeginLine),
    /// A user comes back, and the provider answers.
    Callback(CallbackLine),
}

/// Which kind a line of a script is of.
#[derive(Clone, Copy, Debug, PartialEq, Eq)]
pub enum LineKind {
    /// The client that the script is for.
    Client,
    /// A login begins.
    Begin,
    /// A user comes back, and the provider answers.
    Callback,
}

/// Why a line gives no event.
#[derive(Clone, Copy, Debug, PartialEq, Eq)]
pub enum LineError {
    /// It is none.
    NoEvent,
    /// There was no memory.
    Memory,
}

impl From<AllocError> for LineError {
    ghost use Rattle.std.specs.Prelude.{◌≡◌};
    ghost use Rattle.oidc_cli.specs.declared.events.LineError.TheVariants.{Memory};

    ghost from_gives = { λ _ e. e ≡ Memory };

    fn from(_refused: AllocError) -> LineError {
        LineError::Memory
    }
}

impl<T: Drop> From<AllocFailed<T>> for LineError {
    ghost use Rattle.std.specs.Prelude.{◌≡◌};
    ghost use Rattle.oidc_cli.specs.declared.events.LineError.TheVariants.{Memory};

    ghost from_gives = { λ _ e. e ≡ Memory };

    fn from(_refused: AllocFailed<T>) -> LineError {
        LineError::Memory
    }
}
