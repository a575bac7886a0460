ghost use Rattle.std.specs.Prelude.{◌≡◌, ◌<◌, ◌∷◌, [], length, Some, None, MatchOption, slice_index_or, slice_set};
ghost use Rattle.std.specs.Option.{option_copied};
ghost use Rattle.std.specs.Ordering.{nat_cmp, is_lt};
ghost use Rattle.std.specs.Cmp.Lexicographic.{slice_cmp};
ghost use Rattle.dav_index.specs.Item.{Item};
ghost use Rattle.dav_index.specs.Items.{key_of, has_path, is_item_below, goes_with as goes_with_lem, IsMap, entry_at, with_entry, with_new, with_changed, without_entry};
ghost use Rattle.dav_index.specs.Places.{IsFirst, IsFirstOrEnd, NonePasses};
ghost use Rattle.dav_index.specs.Ready.{NeedsFresh, IsFresh};
ghost use Rattle.dav_index.specs.Tables.{queued_at, closed_entry, sent_entry, emptied_entry, waiting_so};
ghost use Rattle.dav_index.specs.Records.{IsBare};

use crate::entry::{Entry, Waiting};
use crate::fresh::Fresh;
use crate::room::make_room;
use dav_store::BodyId;
use dav_text::{Path, Seen, Text};
use std::alloc::Global;
use std::marker::Model;

/// An entry with its path. Contracts see these two.
#[derive(Debug, Drop)]
pub struct Held {
    /// The text of the path without a slash at its end.
    key: Text,
    path: Path,
    entry: Entry,
}

impl Model for Held {
    ghost use Rattle.dav_index.specs.Item.{Item};

    ghost Value = { Item };

    ghost use Rattle.dav_index.specs.HeldView.{item_of, IsKeyed};

    ghost view = { item_of };

    ghost invariant = { IsKeyed };
}

impl Held {
    /// The path. No slash stands at its end, but for `/` itself.
    pub fn path(&self) -> &Path
        ensures { result.now ≡ self.now.path }
    {
        &self.path
    }

    /// The entry of the path.
    pub fn entry(&self) -> &Entry
        ensures { result.now ≡ self.now.entry }
    {
        &self.entry
    }

    /// The text of the path without a slash at its end.
    pub fn key(&self) -> &Text
        ensures { result.now ≡ key_of self.now.path }
    {
        &self.key
    }

    /// Whether it is the entry of the path, a slash at its end aside.
    pub fn is_of(&self, path: &Path) -> bool
        ensures { result ≡ has_path path.now self.now }
    {
        path.same(&self.path)
    }

    /// Whether it is the entry of a path below this one.
    pub fn is_below(&self, top: &Path) -> bool
        ensures { result ≡ is_item_below top.now self.now }
    {
        self.path.is_under(top)
    }

    /// Whether it is the entry of the path, or also one below it.
    pub fn goes_with(&self, path: &Path, below: bool) -> bool
        ensures { result ≡ goes_with_lem path.now below self.now }
    {
        self.is_of(path) || (below && self.is_below(path))
    }

    // Whether its path's text comes behind this one.
    fn is_behind(&self, key: &Text) -> bool
        ensures { result ≡ is_lt (slice_cmp nat_cmp key.now (key_of self.now.path)) }
    {
        key.as_bytes().cmp(self.key.as_bytes()).is_lt()
    }
}

/// The entries of a table, by the texts of their paths. Contracts see a list in the order of these texts.
#[derive(Debug, Drop)]
pub struct Entries {
    pub(crate) alloc: Global,
    items: Vec<Held>,
}

impl Model for Entries {
    ghost use Rattle.std.specs.Prelude.{List};
    ghost use Rattle.dav_index.specs.Item.{Item};

    ghost Value = { List Item };

    ghost use Rattle.dav_index.specs.EntriesView.{items_of, IsSound};

    ghost view = { items_of };

    ghost invariant = { IsSound };
}

impl Entries {
    /// No entries.
    pub fn new(alloc: Global) -> Entries
        ensures { result ≡ [] }
    {
        Entries {
            alloc,
            items: Vec::new(alloc),
        }
    }

    /// The entries with their paths, in the order of the paths' texts.
    pub fn as_slice(&self) -> &[Held]
        ensures value { result.now ≡ self.now }
        ensures in_order { IsMap self.now }
    {
        self.items.as_slice()
    }

    /// The entry of the path, a slash at its end aside.
    pub fn get(&self, path: &Path) -> Option<&Entry>
        ensures { option_copied result ≡ entry_at path.now self.now }
    {
        match place_of(&self.items, path) {
            Some(place) => Some(self.items[place].entry()),
            None => None,
        }
    }

    /// The body that is queued of the path.
    pub fn queued(&self, path: &Path) -> Option<BodyId>
        ensures { result ≡ queued_at path.now self.now }
    {
        match self.get(path) {
            Some(entry) => entry.queued_body(),
            None => None,
        }
    }

    /// Forgets the entry of the path, and those below it where that is asked.
    pub(crate) fn forget(&mut self, path: &Path, below: bool)
        ensures { self.new ≡ without_entry path.now below self.old }
    {
        self.items.retain(|held| !held.goes_with(path, below));
    }

    /// The path was closed with this body.
    pub(crate) fn close(&mut self, path: &Path, body: BodyId, row: u64, fresh: Option<Fresh>)
        requires bare { IsBare path.now }
        requires fresh { NeedsFresh path.now (length self.old) (entry_at path.now self.old) fresh }
        ensures { self.new ≡ with_entry path.now (closed_entry body row (entry_at path.now self.old)) self.old }
    {
        match place_of(&self.items, path) {
            Some(place) => {
                let entry = self.items[place].entry().closed(body, row);
                self.write(place, entry);
            }
            None => match fresh {
                Some(fresh) => self.add(fresh, Entry::new(body, row)),
                None => unreachable!(),
            },
        }
    }

    /// The server took the body of the path in this file.
    pub(crate) fn sent(&mut self, path: &Path, file: u32, seen: &Seen, row: u64)
        ensures { self.new ≡ with_changed path.now (sent_entry file seen.now row) self.old }
    {
        if let Some(place) = place_of(&self.items, path) {
            let entry = self.items[place].entry().sent(file, seen, row);
            self.write(place, entry);
        }
    }

    /// The entry of the path stays, without its bytes.
    pub(crate) fn empty(&mut self, path: &Path, row: u64)
        ensures { self.new ≡ with_changed path.now (emptied_entry row) self.old }
    {
        if let Some(place) = place_of(&self.items, path) {
            let entry = self.items[place].entry().emptied(row);
            self.write(place, entry);
        }
    }

    /// What waits of the path waits so.
    pub fn wait(&mut self, path: &Path, waiting: Waiting)
        ensures { self.new ≡ with_changed path.now (waiting_so waiting) self.old }
    {
        if let Some(place) = place_of(&self.items, path) {
            let entry = self.items[place].entry().waiting_so(waiting);
            self.write(place, entry);
        }
    }

    // Writes the entry at this place.
    fn write(&mut self, place: usize, entry: Entry)
        requires { place < length self.old }
        ensures { (d : Item) → self.new ≡ slice_set self.old place (record { path = (slice_index_or self.old place d).path; entry = entry }) }
    {
        let held = &mut self.items[place];
        held.entry = entry;
    }

    // Adds an entry of a path that has none.
    fn add(&mut self, fresh: Fresh, entry: Entry)
        requires bare { IsBare fresh.path }
        requires fresh { IsFresh fresh.path (length self.old) fresh }
        requires absent { entry_at fresh.path self.old ≡ None }
        ensures { self.new ≡ with_new fresh.path entry self.old }
    {
        let Fresh { key, path, space } = fresh;
        let place = place_before(&self.items, &key);
        make_room(&mut self.items, space);
        let Ok(()) = self.items.insert(place, Held { key, path, entry }) else {
            unreachable!();
        };
    }
}

// The place of the entry of the path.
fn place_of(items: &[Held], path: &Path) -> Option<usize>
    ensures { MatchOption result (NonePasses (has_path path.now) items.now) (IsFirst (has_path path.now) items.now) }
{
    for (place, held) in items.iter().enumerate() {
        if held.is_of(path) {
            return Some(place);
        }
    }
    None
}

// The first place whose path's text comes behind this one, or the end.
fn place_before(items: &[Held], key: &Text) -> usize
    ensures { IsFirstOrEnd (λ (item : Item). is_lt (slice_cmp nat_cmp key.now (key_of item.path))) items.now result }
{
    for (place, held) in items.iter().enumerate() {
        if held.is_behind(key) {
            return place;
        }
    }
    items.len()
}
