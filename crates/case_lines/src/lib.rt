//! What the programs of cases share: `vectors`, `vectors_requests`, `vectors_tokens` and `vectors_logins`.
//!
//! Each reads standard input to its end and writes one line for each line: an empty line and a line that
//! begins with `#` as they came, and for each other line, which is form pairs with `op` first, the
//! answer of that operation, or `no case`. Which operations there are is each program's own: it hands
//! them in as a type, a [`CaseOperation`]. README.md has the rules of lines.
#![tactic(auto)]

mod answers;
mod case;
mod devices;
mod exchanges;
mod headers;
mod lines;
mod prints;
mod readers;
mod records;
mod verifier_keys;
mod words;

pub use crate::answers::{
    object, ok, ok_form, ok_pair, push_some, refused, refused_as, refused_reading, refused_word,
    text_of,
};
pub use crate::case::{Case, CaseError, bytes_of};
pub use crate::devices::{device_line, introspection_line};
pub use crate::exchanges::{
    Refused, parse_line, refused_line, request_line, response_in, token_answer_line,
};
pub use crate::headers::{content_type, header_of, header_text};
pub use crate::lines::{CaseOperation, answer_lines, exit_code};
pub use crate::prints::{one_of, variant_name};
pub use crate::readers::{algorithm, algorithms, extra_in, moment, number, reading_in, url_of};
pub use crate::records::{Tokens, push_scopes, push_seconds, token_response_line, written};
pub use crate::verifier_keys::{IssuerKey, VerifierKey, keys_in};
pub use crate::words::{kind_word, signature_word};
