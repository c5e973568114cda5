//! What holds of ID tokens, and of user info answers that are tokens, as a whole. Each function here says a
//! law in its contract, and does nothing.

ghost use Rattle.oidc_tokens.specs.Verification.{FailsUnlessAccepted};
ghost use Rattle.oidc_tokens.specs.Refreshed.{RefreshedFailsUnlessAccepted};
ghost use Rattle.oidc_tokens.specs.UserInfoVerification.{InfoFailsUnlessAccepted};
ghost use Rattle.oidc_tokens.specs.Signatures.{meanings};

use oidc_claims::{AdditionalClaims, GenderClaim};
pub use oidc_id_token_claims::laws::{claims_one_home, written_claims_read_back};
use oidc_keys::JsonWebKey;
use oidc_types::JweContentEncryptionAlgorithm;

/// No check of an ID token fails exactly where the token is accepted, for every key type.
pub fn accepted_where_no_check_fails<
    K: JsonWebKey,
    AC: AdditionalClaims,
    GC: GenderClaim,
    JE: JweContentEncryptionAlgorithm,
>()
    ensures { let k = meanings K.JsonWebKey K.KeyUse.JsonWebKeyUse
        K.SigningAlgorithm.JwsSigningAlgorithm.own K.SigningAlgorithm.ClosedVocabulary
        K.SigningAlgorithm.KeyType.ClosedVocabulary in FailsUnlessAccepted k JE AC GC }
{}

/// No check of a user info answer that is a token fails exactly where the token is accepted, for every key
/// type and every payload.
pub fn info_accepted_where_no_check_fails<K: JsonWebKey, JE: JweContentEncryptionAlgorithm, P>()
    ensures { let k = meanings K.JsonWebKey K.KeyUse.JsonWebKeyUse
        K.SigningAlgorithm.JwsSigningAlgorithm.own K.SigningAlgorithm.ClosedVocabulary
        K.SigningAlgorithm.KeyType.ClosedVocabulary in InfoFailsUnlessAccepted k JE P }
{}

/// No check of an ID token that comes with refreshed tokens fails exactly where the token is accepted, for every
/// key type, first ID token and access token.
pub fn refreshed_accepted_where_no_check_fails<
    K: JsonWebKey,
    AC: AdditionalClaims,
    GC: GenderClaim,
    JE: JweContentEncryptionAlgorithm,
>()
    ensures { let k = meanings K.JsonWebKey K.KeyUse.JsonWebKeyUse
        K.SigningAlgorithm.JwsSigningAlgorithm.own K.SigningAlgorithm.ClosedVocabulary
        K.SigningAlgorithm.KeyType.ClosedVocabulary in RefreshedFailsUnlessAccepted k JE AC GC }
{}
