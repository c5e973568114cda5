//! What holds of the types as a whole. Each function here says a law in its contract, and does
//! nothing.

ghost use Rattle.oidc_types.specs.UrlText.{SameTextSameUrl};
ghost use Rattle.oidc_types.specs.Vocabulary.{IsExact, ReadsBack};
ghost use Rattle.oidc_types.specs.CoreAlgorithms.{encryption_algorithms, encryption_text, key_type_text, key_types, management_algorithms, management_text, signing_algorithms, signing_text};
ghost use Rattle.oidc_types.specs.CoreAuthorization.{auth_display_text, auth_displays, auth_error_text, auth_errors, auth_prompt_text, auth_prompts, response_mode_text, response_modes, response_type_text, response_types};
ghost use Rattle.oidc_types.specs.CoreRegistration.{application_type_text, application_types, auth_method_text, auth_methods, claim_type_text, claim_types, grant_type_text, grant_types, register_error_text, register_errors, subject_type_text, subject_types};
ghost use Rattle.oidc_types.specs.declared.core_authorization.CoreAuthDisplay.TheVariants as auth_display;
ghost use Rattle.oidc_types.specs.declared.core_authorization.CoreAuthErrorResponseType.TheVariants as auth_error;
ghost use Rattle.oidc_types.specs.declared.core_authorization.CoreAuthPrompt.TheVariants as auth_prompt;
ghost use Rattle.oidc_types.specs.declared.core_authorization.CoreResponseMode.TheVariants as response_mode;
ghost use Rattle.oidc_types.specs.declared.core_authorization.CoreResponseType.TheVariants as response_type;
ghost use Rattle.oidc_types.specs.declared.core_registration.CoreApplicationType.TheVariants as application;
ghost use Rattle.oidc_types.specs.declared.core_registration.CoreClaimType.TheVariants as claim_type;
ghost use Rattle.oidc_types.specs.declared.core_registration.CoreClientAuthMethod.TheVariants as auth_method;
ghost use Rattle.oidc_types.specs.declared.core_registration.CoreGrantType.TheVariants as grant_type;
ghost use Rattle.oidc_types.specs.declared.core_registration.CoreRegisterErrorResponseType.TheVariants as register_error;
ghost use Rattle.oidc_types.specs.declared.core_registration.CoreSubjectIdentifierType.TheVariants as subject_type;

/// Where `UrlText::new` made two values, and their texts are equal, their URLs are equal. Of a value
/// that `UrlText::from_url` made this says nothing.
pub fn same_text_same_url()
    ensures { SameTextSameUrl }
{}

/// A closed vocabulary takes a text as a word exactly where it is that word's text.
pub fn closed_words_are_exact()
    ensures key_types { IsExact key_type_text key_types }
    ensures signing_algorithms { IsExact signing_text signing_algorithms }
    ensures encryption_algorithms { IsExact encryption_text encryption_algorithms }
    ensures management_algorithms { IsExact management_text management_algorithms }
{}

/// In an open vocabulary the text of each known word is that word's.
pub fn known_words_read_back()
    ensures applications { ReadsBack application_type_text application_types application.Extension }
    ensures claim_types { ReadsBack claim_type_text claim_types claim_type.Extension }
    ensures auth_methods { ReadsBack auth_method_text auth_methods auth_method.Extension }
    ensures grant_types { ReadsBack grant_type_text grant_types grant_type.Extension }
    ensures register_errors { ReadsBack register_error_text register_errors register_error.Extension }
    ensures subject_types { ReadsBack subject_type_text subject_types subject_type.Extension }
    ensures auth_displays { ReadsBack auth_display_text auth_displays auth_display.Extension }
    ensures auth_prompts { ReadsBack auth_prompt_text auth_prompts auth_prompt.Extension }
    ensures response_modes { ReadsBack response_mode_text response_modes response_mode.Extension }
    ensures response_types { ReadsBack response_type_text response_types response_type.Extension }
    ensures auth_errors { ReadsBack auth_error_text auth_errors auth_error.Extension }
{}
