ghost use Rattle.std.specs.Prelude.{◌≡◌, IsTrue, false, MatchOption};
ghost use Rattle.dav_auth.specs.Clean.{is_clean as is_clean_lem};

use crate::clean::is_clean;
use dav_text::{Blob, Text};

/// Who logs in, and by what. The name holds no CR, LF or NUL.
#[derive(Drop)]
pub struct Secret {
    pub user: Text,
    pub password: Blob,
    pub ghost clean: { IsTrue (is_clean_lem user) },
}

impl Secret {
    /// The login of this user. None exactly where the name holds CR, LF or NUL.
    pub fn new(user: Text, password: Blob) -> Option<Secret>
        ensures { MatchOption result (is_clean_lem user ≡ false) (λ s. (s.user ≡ user) × (s.password ≡ password)) }
    {
        if is_clean(user.as_bytes()) {
            Some(Secret { user, password })
        } else {
            None
        }
    }
}
