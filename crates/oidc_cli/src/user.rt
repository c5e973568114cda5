//! The program's types of users: it keeps all additional claims, takes any text as a gender, and has symmetric keys.
use oidc_claims::AllOtherClaims;
use oidc_keys::CoreJsonWebKey;
use oidc_login::{Logins, SignedIn};
use oidc_tokens::IdTokenClaims;
use oidc_types::CoreGenderClaim;
use oidc_user_info::UserInfoClaims;

/// The pending logins of a client of `'c`.
pub type PendingLogins<'c> = Logins<'c, AllOtherClaims, CoreGenderClaim, CoreJsonWebKey>;

/// A user who is signed in.
pub type User = SignedIn<AllOtherClaims, CoreGenderClaim>;

/// The claims of an ID token.
pub type UserClaims = IdTokenClaims<AllOtherClaims, CoreGenderClaim>;

/// The claims of a user info answer.
pub type UserInfo = UserInfoClaims<AllOtherClaims, CoreGenderClaim>;
