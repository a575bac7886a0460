ghost use Rattle.std.specs.Prelude.{◌≡◌, ℕ, ◌+◌, ◌*◌, ◌<◌, ◌≤◌, List, [], ◌∷◌, ◌++◌, vec_capacity};
ghost use Rattle.dav_store.specs.Rows.{IsPayload, staged};

/// What the first three bytes of a row, or fewer at the file's end, say of it.
#[derive(Clone, Copy, Debug, PartialEq, Eq)]
pub(crate) enum Start {
    /// The gate is closed.
    Closed,
    /// The gate is missing, or the row is cut off or has the length 0.
    Broken,
    /// A payload of that length is to follow.
    Long(usize),
}

impl Start {
    ghost use Rattle.dav_store.specs.Starting.{IsJudged};

    /// Judges the bytes from a gate on.
    pub(crate) fn of(bytes: &[u8]) -> Start
        ensures { IsJudged bytes.now result }
    {
        match bytes {
            [0, ..] => Start::Closed,
            [_, 0, 0, ..] => Start::Broken,
            [_, high, low, ..] => Start::Long(*high as usize * 256 + *low as usize),
            _ => Start::Broken,
        }
    }
}

/// Puts a row but for its gate, and the closed gate behind it, into the room. Takes no memory.
pub(crate) fn stage(room: &mut Vec<u8>, payload: &[u8])
    requires fits { IsPayload payload.now }
    requires room { 65538 ≤ vec_capacity room.old }
    ensures text { room.new.items ≡ staged payload.now }
    ensures room { 65538 ≤ vec_capacity room.new }
{
    let len = payload.len();
    room.clear();
    let Ok(()) = room.push((len / 256) as u8) else {
        unreachable!();
    };
    let Ok(()) = room.push((len % 256) as u8) else {
        unreachable!();
    };
    let Ok(()) = room.extend_from_slice(payload) else {
        unreachable!();
    };
    let Ok(()) = room.push(0) else {
        unreachable!();
    };
}
