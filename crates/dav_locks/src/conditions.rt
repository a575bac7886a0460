ghost use Rattle.std.specs.Prelude.{◌≡◌, ◌≢◌, ◌++◌, [], flat_map, IfOk, OnOk};
ghost use Rattle.std.specs.List.{All};
ghost use Rattle.dav_locks.specs.Grammar.{If};
ghost use Rattle.dav_locks.specs.IfText.{if_text as if_text_lem, condition_text, later_text, conditions_text, conditions, HasToken};

use crate::list::Locks;
use crate::lock::Lock;
use dav_text::{Blob, Memory};
use dav_uri::Base;
use std::alloc::Global;

/// The value of an If field that submits each of the locks as one at its root on the base's server: RFC 4918
/// section 10.4. It is empty where there is no lock.
pub fn if_text(alloc: Global, base: &Base, locks: &Locks) -> Result<Blob, Memory>
    ensures text { IfOk result (λ blob. blob ≡ if_text_lem base.now locks.now) }
    ensures grammar { IfOk result (λ blob. locks.now ≢ [] → If (conditions base.now locks.now) blob) }
{
    let host = base.host_field(alloc)?;
    let mut text = Vec::new(alloc);
    append_conditions(host.as_bytes(), locks.as_slice(), &mut text)?;
    Ok(Blob::from_vec(text))
}

// The conditions, with a space between two of them.
fn append_conditions(host: &[u8], locks: &[Lock], out: &mut Vec<u8>) -> Result<(), Memory>
    ensures text { OnOk result (out.new.items ≡ out.old.items ++ conditions_text host.now locks.now) }
    ensures tokens { OnOk result (All HasToken locks.now) }
{
    if let Some((first, others)) = locks.split_first() {
        append_condition(host, first, out)?;
        append_later(host, others, out)?;
    }
    Ok(())
}

// Each condition after a space.
fn append_later(host: &[u8], locks: &[Lock], out: &mut Vec<u8>) -> Result<(), Memory>
    ensures text { OnOk result (out.new.items ≡ out.old.items ++ flat_map (later_text host.now) locks.now) }
    ensures tokens { OnOk result (All HasToken locks.now) }
{
    for lock in locks {
        out.push(b' ')?;
        append_condition(host, lock, out)?;
    }
    Ok(())
}

// The URL of the root, and the token.
fn append_condition(host: &[u8], lock: &Lock, out: &mut Vec<u8>) -> Result<(), Memory>
    ensures text { OnOk result (out.new.items ≡ out.old.items ++ condition_text host.now lock.now) }
    ensures token { OnOk result (HasToken lock.now) }
{
    out.extend_from_slice(b"<http://")?;
    out.extend_from_slice(host)?;
    lock.root.escaped_into(out)?;
    out.extend_from_slice(b"> (<")?;
    out.extend_from_slice(lock.token.as_bytes())?;
    out.extend_from_slice(b">)")?;
    Ok(())
}
