//! The claim `gender` (OpenID Connect Core 1.0 section 5.1).

ghost use Rattle.std.specs.Prelude.{◌≡◌, Result, IfOk};
ghost use Rattle.serde_json.specs.Data.{Data};
ghost use Rattle.serde_json.specs.View.{view};
ghost use Rattle.oidc_members.specs.Answers.{Answers};
ghost use Rattle.oidc_members.specs.Seen.{SeenMember};
ghost use Rattle.oidc_members.specs.declared.refusal.Refusal.{Refusal};
ghost use Rattle.oidc_readers.specs.WrittenBack.{HasTexts};
ghost use Rattle.oidc_claims.specs.Gender.{GenderReadsBack, GenderIsValue};

use oidc_members::{Member, ParseError, ParseKind, Refusal};
use oidc_types::CoreGenderClaim;
use serde_json::Value;
use std::alloc::{AllocError, Global};

/// The type of a user's gender. Its meanings are what a member reads as, and what a value is written
/// as.
///
/// It may be let go, so that code which is generic over it can drop what it read.
pub trait GenderClaim: Drop {
    // What a member of this claim reads as, or why it is refused.
    ghost read_of: { SeenMember → Result Self Refusal };

    // The value that is written.
    ghost write_of: { Self → Data };

    /// Reads the value of the member. The answer is the meaning, with the kind and the field that it
    /// names, or `Memory`. For a null the answer counts for nothing: in claims it is an absent gender.
    fn read(alloc: Global, member: &Member) -> Result<Self, ParseError>
        ensures answer { Answers (read_of member.now) result };

    /// The value that stands for this one, with UTF-8 texts. `AllocError` is want of memory, the one
    /// error.
    fn write(&self, alloc: Global) -> Result<Value, AllocError>
        ensures value { IfOk result (λ value. view value ≡ write_of self.now) }
        ensures texts { IfOk result (λ value. HasTexts (view value)) };

    /// A copy, which equals its source. `AllocError` is want of memory, the one error.
    fn clone_in(&self, alloc: Global) -> Result<Self, AllocError>
        ensures copy { IfOk result (λ copy. copy ≡ self.now) };

    // What is written reads back, in each member that has it as its value.
    ghost reads_back: { GenderReadsBack read_of write_of };

    // What is written isn't null, and its value may stand in an object: its numbers are whole, its
    // objects in order, and it nests at most 127 deep.
    ghost written_is_value: { GenderIsValue write_of };
}

/// A text, kept as it is given. Another value is refused as `WrongType` of the member's name.
impl GenderClaim for CoreGenderClaim {
    ghost use Rattle.std.proofs.Common.{ap, lit≤};
    ghost use Rattle.serde_json.specs.Find.{as_str};
    ghost use Rattle.serde_json.specs.Data.{string};
    ghost use Rattle.std.specs.Option.{ok_or};
    ghost use Rattle.oidc_readers.specs.Kinds.{text_kind, of_member};
    ghost use Rattle.oidc_members.specs.declared.refusal.ParseKind.TheVariants.{WrongType};

    ghost read_of = { text_kind };

    ghost write_of = { string };

    ghost reads_back = { λ _ member is. ap
        (λ value. ok_or (as_str value) (of_member WrongType member)) is };

    ghost written_is_value = { λ _. (λ e. Prim.cc, (tt, lit≤ tt)) };

    fn read(alloc: Global, member: &Member) -> Result<CoreGenderClaim, ParseError> {
        match member.value() {
            Value::String(text) => {
                let text = String::from_str(alloc, text.as_str())?;
                Ok(CoreGenderClaim::new(text))
            }
            _ => Err(Refusal::of_field(alloc, ParseKind::WrongType, member.name())?.into()),
        }
    }

    #[tactic(auto, using(crate::proofs::Theorems::value_has_texts))]
    fn write(&self, alloc: Global) -> Result<Value, AllocError> {
        Ok(Value::String(String::from_str(alloc, self.as_str())?))
    }

    fn clone_in(&self, alloc: Global) -> Result<CoreGenderClaim, AllocError> {
        self.clone_in(alloc)
    }
}
