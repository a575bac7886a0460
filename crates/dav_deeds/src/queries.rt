ghost use Rattle.std.specs.Prelude.{◌≡◌, ◌≤◌};
ghost use Rattle.std.specs.Option.{option_copied};
ghost use Rattle.dav_index.specs.Bounds.{len_of as len_of_lem, queued_count as queued_count_lem, queued_bytes as queued_bytes_lem};
ghost use Rattle.dav_index.specs.Queries.{is_older as is_older_lem, oldest_clean as oldest_clean_lem, is_due as is_due_lem, is_sooner as is_sooner_lem, is_next as is_next_lem, next_due as next_due_lem, due_of as due_of_lem, file_of as file_of_lem};

use dav_index::{Held, Waiting};
use dav_store::BodyId;

/// How many entries are queued.
pub fn queued_count(items: &[Held]) -> usize
    ensures { result ≡ queued_count_lem items.now }
{
    items
        .iter()
        .filter(|held| held.entry().queued.is_some())
        .count()
}

// How many bytes a body has, if there is one.
fn len_of(body: Option<BodyId>) -> u64
    ensures { result ≡ len_of_lem body }
{
    match body {
        Some(body) => body.len,
        None => 0,
    }
}

/// How many bytes are queued.
pub fn queued_bytes(items: &[Held]) -> u64
    requires { queued_bytes_lem items.now ≤ 1073741824 }
    ensures { result ≡ queued_bytes_lem items.now }
{
    items
        .iter()
        .map(|held| len_of(held.entry().queued_body()))
        .sum()
}

// Whether the entry may be forgotten, and was written before the one found so far.
fn is_older(best: Option<&Held>, held: &Held) -> bool
    ensures { result ≡ is_older_lem (option_copied best.entry) held.now }
{
    if held.entry().queued.is_some() {
        return false;
    }
    match best {
        Some(best) => held.entry().age < best.entry().age,
        None => true,
    }
}

/// The entry that isn't queued and was written longest ago.
pub fn oldest_clean(items: &[Held]) -> Option<&Held>
    ensures { option_copied result ≡ oldest_clean_lem items.now }
{
    let mut best = None;
    for held in items {
        if is_older(best, held) {
            best = Some(held);
        }
    }
    best
}

// Whether bytes that wait so may be sent.
fn is_due(now: u64, stopping: bool, waiting: Option<Waiting>) -> bool
    ensures { result ≡ is_due_lem now stopping waiting }
{
    match waiting {
        Some(waiting) => waiting.due <= now || (stopping && !waiting.tried),
        None => false,
    }
}

// The moment from which on bytes that wait may be sent.
fn due_of(waiting: Option<Waiting>) -> u64
    ensures { result ≡ due_of_lem waiting }
{
    match waiting {
        Some(waiting) => waiting.due,
        None => 0,
    }
}

// The file of a body.
fn file_of(body: Option<BodyId>) -> u32
    ensures { result ≡ file_of_lem body }
{
    match body {
        Some(body) => body.file,
        None => 0,
    }
}

// Whether the one is to be sent before the other.
fn is_sooner(held: &Held, best: &Held) -> bool
    ensures { result ≡ is_sooner_lem held.now best.now }
{
    let due = due_of(held.entry().queued);
    let best_due = due_of(best.entry().queued);
    due < best_due || (due == best_due && file_of(held.entry().body) < file_of(best.entry().body))
}

// Whether the entry may be sent, and before the best one so far.
fn is_next(now: u64, stopping: bool, best: Option<&Held>, held: &Held) -> bool
    ensures { result ≡ is_next_lem now stopping (option_copied best.entry) held.now }
{
    if !is_due(now, stopping, held.entry().queued) {
        return false;
    }
    match best {
        Some(best) => is_sooner(held, best),
        None => true,
    }
}

/// The entry that is to be sent next.
pub fn next_due(items: &[Held], now: u64, stopping: bool) -> Option<&Held>
    ensures { option_copied result ≡ next_due_lem now stopping items.now }
{
    let mut best = None;
    for held in items {
        if is_next(now, stopping, best, held) {
            best = Some(held);
        }
    }
    best
}
