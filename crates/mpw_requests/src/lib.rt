//! The requests of connections, in groups. Each group has its own file and its own decision tables. A token is digested when it is read
//! ([`digest_of`]), and stored nowhere.
#![tactic(auto)]

mod digest;
mod layouts;
mod need;
mod parts;
mod policy;
mod request;
mod run;
mod sign_off;
mod table;
mod wafer;
mod words;

pub use digest::{digest_of, read_digest};
pub use layouts::{LayoutRequest, LayoutVerb};
pub use need::{Need, need_of};
pub use parts::{
    Operands, Parts, Upload, parts_of, payload_of, request_of, requests_have_their_parts, upload_of,
};
pub use policy::{Digest, PolicyRequest, PolicyVerb};
pub use request::{Request, SharedRequest, kept_request};
pub use run::{RunRequest, RunVerb};
pub use sign_off::{MarkerName, SignOffRequest, SignOffVerb};
pub use table::{ALL, Form, Shape, Verb, form_of, verb_of};
pub use wafer::{WaferRequest, WaferVerb};
pub use words::{
    axis_letter, axis_of, is_on_cells, operation_of, operation_word, orient_of, orient_word,
};
