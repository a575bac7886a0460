use crate::asks::outcome_of_desk;
use crate::case::Case;
use crate::devices::{outcome_of_sink, outcome_of_source, outcome_of_wire};
use crate::disks::outcome_of_disk;
use crate::documents::outcome_of_document;
use crate::files::{
    outcome_of_precondition, outcome_of_seen, outcome_of_status, outcome_of_waiting,
};
use crate::heads::{outcome_of_head, outcome_of_kept, outcome_of_size_line, outcome_of_trailers};
use crate::jobs::outcome_of_job;
use crate::listings::outcome_of_listing;
use crate::locals::outcome_of_locals;
use crate::locks::{outcome_of_locks, outcome_of_timeout};
use crate::logins::{
    outcome_of_challenge, outcome_of_info, outcome_of_login, outcome_of_server_proof,
};
use crate::numbers::outcome_of_numbers;
use crate::paths::{outcome_of_path, outcome_of_two_paths, outcome_of_typed};
use crate::records::{outcome_of_bounds, outcome_of_entry, outcome_of_record, outcome_of_table};
use crate::replies::outcome_of_reply;
use crate::requests::{outcome_of_request, outcome_of_value};
use crate::texts::{
    outcome_of_bytes, outcome_of_method, outcome_of_tag, outcome_of_text, outcome_of_two_seen,
    outcome_of_written,
};
use crate::turns::outcome_of_turn;
use crate::uris::{outcome_of_base, outcome_of_redirect, outcome_of_reference};
use dav_script::RowFault;
use std::alloc::Global;

/// Whether what is given to a kind comes in pieces, and is to be cut everywhere.
pub fn comes_in_pieces(kind: &str) -> bool {
    matches!(kind, "reply" | "document" | "listing")
}

/// Whether a word is a setting that a kind reads. Each kind that comes in pieces reads those that say where it is cut.
pub fn is_setting(kind: &str, word: &str) -> bool {
    match kind {
        "typed" => matches!(word, "here"),
        "two_paths" | "two_seen" | "bytes" | "text" => matches!(word, "other"),
        "written" => matches!(word, "as"),
        "head" => matches!(word, "method" | "tells"),
        "kept" => matches!(word, "before"),
        "reply" => matches!(word, "method" | "tells" | "by"),
        "request" => matches!(word, "host" | "body"),
        "base" | "challenge" => matches!(word, "tells"),
        "reference" => matches!(word, "base" | "at"),
        "login" => is_of_login(word) || word == "tells",
        "server_proof" => is_of_login(word) || word == "target",
        "seen" => matches!(word, "method" | "before"),
        "waiting" => matches!(word, "method"),
        "entry" => matches!(word, "path"),
        "document" => matches!(word, "pieces"),
        "listing" => matches!(word, "pieces" | "root" | "stops_behind" | "shows"),
        "source" => matches!(word, "bytes" | "takes" | "cuts" | "fails"),
        "sink" => matches!(word, "takes" | "fails"),
        "wire" => matches!(word, "stream" | "takes" | "cuts" | "fails"),
        "numbers" => matches!(word, "numbers"),
        "locals" => matches!(word, "file" | "fails"),
        "disk" => matches!(word, "fails" | "moment"),
        "desk" => matches!(word, "file" | "show"),
        "job" => matches!(word, "before"),
        "turn" => matches!(word, "reply"),
        _ => false,
    }
}

/// Whether a word is a setting of a login.
fn is_of_login(word: &str) -> bool {
    matches!(
        word,
        "user" | "password" | "realm" | "nonce" | "opaque" | "algorithm" | "qop" | "cnonce"
    )
}

/// What comes of a case, as text.
pub fn outcome_of(alloc: Global, case: &Case<'_>) -> Result<Vec<u8>, RowFault> {
    match case.kind {
        "path" => outcome_of_path(alloc, case),
        "typed" => outcome_of_typed(alloc, case),
        "two_paths" => outcome_of_two_paths(alloc, case),
        "tag" => outcome_of_tag(alloc, case),
        "two_seen" => outcome_of_two_seen(alloc, case),
        "written" => outcome_of_written(alloc, case),
        "bytes" => outcome_of_bytes(alloc, case),
        "text" => outcome_of_text(alloc, case),
        "method" => outcome_of_method(alloc, case),
        "head" => outcome_of_head(alloc, case),
        "size_line" => outcome_of_size_line(alloc, case),
        "trailers" => outcome_of_trailers(alloc, case),
        "kept" => outcome_of_kept(alloc, case),
        "reply" => outcome_of_reply(alloc, case),
        "request" => outcome_of_request(alloc, case),
        "value" => outcome_of_value(alloc, case),
        "base" => outcome_of_base(alloc, case),
        "reference" => outcome_of_reference(alloc, case),
        "redirect" => outcome_of_redirect(alloc, case),
        "challenge" => outcome_of_challenge(alloc, case),
        "login" => outcome_of_login(alloc, case),
        "server_proof" => outcome_of_server_proof(alloc, case),
        "info" => outcome_of_info(alloc, case),
        "precondition" => outcome_of_precondition(alloc, case),
        "seen" => outcome_of_seen(alloc, case),
        "waiting" => outcome_of_waiting(alloc, case),
        "status" => outcome_of_status(alloc, case),
        "record" => outcome_of_record(alloc, case),
        "table" => outcome_of_table(alloc, case),
        "entry" => outcome_of_entry(alloc, case),
        "bounds" => outcome_of_bounds(alloc, case),
        "source" => outcome_of_source(alloc, case),
        "sink" => outcome_of_sink(alloc, case),
        "wire" => outcome_of_wire(alloc, case),
        "numbers" => outcome_of_numbers(alloc, case),
        "locals" => outcome_of_locals(alloc, case),
        "locks" => outcome_of_locks(alloc, case),
        "timeout" => outcome_of_timeout(alloc, case),
        "disk" => outcome_of_disk(alloc, case),
        "desk" => outcome_of_desk(alloc, case),
        "job" => outcome_of_job(alloc, case),
        "turn" => outcome_of_turn(alloc, case),
        "document" => outcome_of_document(alloc, case),
        "listing" => outcome_of_listing(alloc, case),
        _ => Err(case.given.bad_word()),
    }
}
