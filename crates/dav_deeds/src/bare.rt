ghost use Rattle.std.specs.Prelude.{◌≡◌, IfOk};
ghost use Rattle.dav_text.specs.Path.{IsPath};
ghost use Rattle.dav_deeds.specs.Effects.{bare};

use dav_text::{Memory, Path};
use std::alloc::Global;

/// The path without a slash at its end, but for the path without segments.
pub fn bare_path(alloc: Global, path: &Path) -> Result<Path, Memory>
    requires { IsPath path.now }
    ensures { IfOk result (λ p. p ≡ bare path.now) }
{
    if !path.has_slash() {
        return path.copy(alloc);
    }
    let text = path.escaped(alloc)?;
    let Some(rest) = text.as_str().strip_suffix('/') else {
        unreachable!();
    };
    if rest.is_empty() {
        return path.copy(alloc);
    }
    match Path::read(alloc, rest) {
        Ok(bare) => Ok(bare),
        Err(_) => Err(Memory),
    }
}
