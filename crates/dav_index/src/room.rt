ghost use Rattle.std.specs.Prelude.{◌≡◌, ◌<◌, [], vec_len};
ghost use Rattle.std.specs.Vec.{vec_capacity};

/// Moves the items into the other space, where they have no room for one more.
pub(crate) fn make_room<T: Drop>(items: &mut Vec<T>, space: Vec<T>)
    requires room { vec_len items.old < vec_capacity space }
    requires empty { space.items ≡ [] }
    ensures items { items.new.items ≡ items.old.items }
    ensures room { vec_len items.new < vec_capacity items.new }
{
    if items.len() < items.capacity() {
        return;
    }
    let mut space = space;
    let Ok(()) = space.append(items) else {
        unreachable!();
    };
    *items = space;
}
