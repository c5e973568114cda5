// The members that an ID token's own fields are written as (OpenID Connect Core 1.0 section 2).

ghost use Rattle.std.specs.Prelude.{◌≡◌, IfOk, option_map};
ghost use Rattle.std.specs.List.{All};
ghost use Rattle.std.specs.Option.{option_copied};
ghost use Rattle.oidc_readers.specs.WrittenBack.{IsUtf8Member};
ghost use Rattle.oidc_id_token_claims.specs.TokenFields.{own_members as members_of_own};

use crate::token_fields::OwnClaims;
use oidc_members::OutMember;
use oidc_readers::{named, put_optional_moment, put_optional_text, put_text, put_texts};
use oidc_types::{Marker, Nonce, Text};
use std::alloc::{AllocError, Global};

// How many members there is room for at once: the own fields, and some claims behind them.
const ROOM: usize = 16;

// The fields in their order, absent ones left out.
pub(crate) fn own_members(alloc: Global, own: &OwnClaims) -> Result<Vec<OutMember>, AllocError>
    ensures members { IfOk result (λ members. members.items ≡ members_of_own own.now) }
    ensures texts { IfOk result (λ members. All IsUtf8Member members.items) }
{
    let mut out = Vec::with_capacity(alloc, ROOM)?;
    put_text(alloc, &mut out, named("iss"), own.issuer.as_str())?;
    put_texts(
        alloc,
        &mut out,
        named("aud"),
        Some(own.audiences.as_slice()),
    )?;
    put_optional_moment(alloc, &mut out, named("exp"), Some(own.expiration))?;
    put_optional_moment(alloc, &mut out, named("iat"), Some(own.issue_time))?;
    put_optional_moment(alloc, &mut out, named("auth_time"), own.auth_time)?;
    put_optional_text(alloc, &mut out, named("nonce"), text_of_nonce(&own.nonce))?;
    put_optional_text(
        alloc,
        &mut out,
        named("acr"),
        text_of(&own.auth_context_ref),
    )?;
    put_texts(
        alloc,
        &mut out,
        named("amr"),
        slice_of(&own.auth_method_refs),
    )?;
    put_optional_text(
        alloc,
        &mut out,
        named("azp"),
        text_of(&own.authorized_party),
    )?;
    put_optional_text(
        alloc,
        &mut out,
        named("at_hash"),
        text_of(&own.access_token_hash),
    )?;
    put_optional_text(alloc, &mut out, named("c_hash"), text_of(&own.code_hash))?;
    Ok(out)
}

// ---- optional fields, as references

fn text_of_nonce(nonce: &Option<Nonce>) -> Option<&str>
    ensures { option_copied result ≡ nonce.now }
{
    match nonce {
        None => None,
        Some(nonce) => Some(nonce.secret()),
    }
}

fn text_of<M: Marker>(text: &Option<Text<M>>) -> Option<&str>
    ensures { option_copied result ≡ text.now }
{
    match text {
        None => None,
        Some(text) => Some(text.as_str()),
    }
}

fn slice_of<M: Marker>(texts: &Option<Vec<Text<M>>>) -> Option<&[Text<M>]>
    ensures { option_copied result ≡ option_map (λ texts. texts.items) texts.now }
{
    match texts {
        None => None,
        Some(texts) => Some(texts.as_slice()),
    }
}
