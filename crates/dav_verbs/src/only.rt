ghost use Rattle.std.specs.Prelude.{◌≡◌, option_copied};
ghost use Rattle.http_header.specs.HeaderMap.{get_all};
ghost use Rattle.dav_verbs.specs.Only.{only_in};

use http_header::{HeaderMap, HeaderName, HeaderValue};

/// The value of the one field of this name; None where there is none, or more than one.
pub(crate) fn only_value(fields: &HeaderMap, name: HeaderName) -> Option<&HeaderValue>
    ensures { option_copied result ≡ only_in (get_all fields.now name) }
{
    let mut values = fields.get_all(name).iter();
    let first = values.next()?;
    match values.next() {
        None => Some(first),
        Some(_) => None,
    }
}
