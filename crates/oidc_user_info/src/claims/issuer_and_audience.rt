// The fields of user info that are no claims (OpenID Connect Core 1.0 section 5.3.2).

ghost use Rattle.std.specs.Prelude.{◌≡◌, [], option_map};
ghost use Rattle.std.specs.Option.{option_flatten};
ghost use Rattle.oidc_readers.specs.Slots.{slot_value};
ghost use Rattle.oidc_user_info.specs.UserInfoClaims as spec;
ghost use Rattle.oidc_user_info.specs.IssuerAndAudience.{issuer_and_audience};

use oidc_members::{Member, ParseError, Reading};
use oidc_readers::{MemberReader, Once, TextOrTexts};
use oidc_types::{Audience, AudienceMarker, IssuerUrl};
use std::alloc::Global;

// The fields, as they are read.
#[derive(Drop)]
pub(crate) struct IssuerAndAudience {
    iss: Once<Option<IssuerUrl>>,
    aud: Once<Option<TextOrTexts<AudienceMarker>>>,
}

impl IssuerAndAudience {
    #[tactic(auto, unfolding(oidc_readers::specs::Slots::slot))]
    pub(crate) fn new() -> Self
        ensures { result ≡ issuer_and_audience [] }
    {
        IssuerAndAudience {
            iss: Once::new(),
            aud: Once::new(),
        }
    }

    // What they hold, where it is said.
    pub(crate) fn into_parts(self) -> (Option<IssuerUrl>, Option<Vec<Audience>>)
        ensures issuer { result.0 ≡ option_flatten (slot_value self.iss) }
        ensures audiences { option_map (λ texts. texts.items) result.1
            ≡ option_flatten (slot_value self.aud) }
    {
        (self.iss.optional(), vec_of(self.aud.optional()))
    }
}

fn vec_of(texts: Option<TextOrTexts<AudienceMarker>>) -> Option<Vec<Audience>>
    ensures { option_map (λ texts. texts.items) result ≡ texts }
{
    match texts {
        None => None,
        Some(texts) => Some(texts.into_vec()),
    }
}

impl MemberReader for IssuerAndAudience {
    ghost fault = { λ _. spec.issuer_and_audience_rule };

    ghost state = { λ _. issuer_and_audience };

    fn take(
        &mut self,
        alloc: Global,
        member: &Member,
        _reading: Reading,
    ) -> Result<(), ParseError> {
        self.iss
            .take(alloc, "iss", member)
            .and(self.aud.take(alloc, "aud", member))
    }
}
