ghost use Rattle.std.specs.Prelude.{IfOk, MatchOption};
ghost use Rattle.dav_run.specs.Words.{HasNoBase, IsBase, texts_of};

use dav_text::Memory;
use dav_uri::{Base, UriFault};
use std::alloc::Global;

/// The base that the words name, if the one word is the URL of a base.
pub fn base_of(alloc: Global, words: &[String]) -> Result<Option<Base>, Memory>
    ensures { IfOk result (λ base. MatchOption base (HasNoBase (texts_of words.now))
        (IsBase (texts_of words.now))) }
{
    let [word] = words else {
        return Ok(None);
    };
    match Base::read(alloc, word.as_str()) {
        Ok(base) => Ok(Some(base)),
        Err(UriFault::NotAUrl) => Ok(None),
        Err(UriFault::NotHttp) => Ok(None),
        Err(UriFault::OtherServer { .. }) => Ok(None),
        Err(UriFault::Memory) => Err(Memory),
    }
}
