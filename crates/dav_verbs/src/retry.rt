ghost use Rattle.std.specs.Prelude.{◌≡◌};
ghost use Rattle.dav_verbs.specs.Retry.{seconds_of as seconds_of_lem, retry_after_of};

use crate::only::only_value;
use dav_frame::Reply;
use dav_text::number_of;
use http_header::RETRY_AFTER;

// How many digits a waiting time may have.
const DIGITS_MAX: usize = 9;

/// The seconds that these digits write, and 0 where they are too many or not digits alone.
fn seconds_of(text: &[u8]) -> u64
    ensures { result ≡ seconds_of_lem text.now }
{
    number_of(text, DIGITS_MAX).unwrap_or(0)
}

/// After how many seconds the reply asks for the request again: RFC 9110 section 10.2.3. It is 0 where there
/// is not one Retry-After field alone, or its value is not 1 to 9 digits. A date is not read.
pub fn retry_after(reply: &Reply) -> u64
    ensures { result ≡ retry_after_of reply.now.fields }
{
    match only_value(&reply.fields, RETRY_AFTER) {
        Some(value) => seconds_of(value.as_bytes()),
        None => 0,
    }
}
