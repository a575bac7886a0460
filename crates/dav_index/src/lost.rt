ghost use Rattle.std.specs.Prelude.{◌≡◌, ◌++◌, ◌∷◌, [], length};
ghost use Rattle.std.specs.Option.{option_copied};
ghost use Rattle.dav_index.specs.Bounds.{lost_at};
ghost use Rattle.dav_index.specs.Items.{Every};
ghost use Rattle.dav_index.specs.declared.lost.LostItem.{LostItem};
ghost use Rattle.dav_index.specs.Ready.{IsLoss};
ghost use Rattle.dav_index.specs.Records.{IsBare};
ghost use Rattle.dav_index.specs.Tables.{without_number};

use crate::fresh::Loss;
use crate::room::make_room;
use dav_store::BodyId;
use dav_text::Path;
use std::alloc::Global;
use std::marker::Model;

/// Bytes that the server refused.
#[derive(Debug, Drop)]
pub struct LostItem {
    /// The number by which they are named.
    pub number: u32,
    /// The path that they were for.
    pub path: Path,
    /// The bytes.
    pub body: BodyId,
}

/// The bytes that the server refused, in the order of their records. Contracts see a list.
#[derive(Debug, Drop)]
pub struct LostList {
    pub(crate) alloc: Global,
    items: Vec<LostItem>,
}

impl Model for LostList {
    ghost use Rattle.std.specs.Prelude.{List};
    ghost use Rattle.dav_index.specs.declared.lost.LostItem.{LostItem};

    ghost Value = { List LostItem };

    ghost use Rattle.dav_index.specs.LostView.{lost_of, IsSound};

    ghost view = { lost_of };

    ghost invariant = { IsSound };
}

impl LostList {
    /// No lost bytes.
    pub fn new(alloc: Global) -> LostList
        ensures { result ≡ [] }
    {
        LostList {
            alloc,
            items: Vec::new(alloc),
        }
    }

    /// The lost bytes, in the order of their records.
    pub fn as_slice(&self) -> &[LostItem]
        ensures value { result.now ≡ self.now }
        ensures paths { Every (λ (item : LostItem). IsBare item.path) self.now }
    {
        self.items.as_slice()
    }

    /// The lost bytes of this number.
    pub fn get(&self, number: u32) -> Option<&LostItem>
        ensures { option_copied result ≡ lost_at number self.now }
    {
        self.items.iter().find(|item| item.number == number)
    }

    /// Puts a body behind the others.
    pub(crate) fn add(&mut self, number: u32, body: BodyId, loss: Loss)
        requires bare { IsBare loss.path }
        requires loss { IsLoss loss.path (length self.old) loss }
        ensures { self.new ≡ self.old ++ record { number = number; path = loss.path; body = body } ∷ [] }
    {
        let Loss { path, space } = loss;
        make_room(&mut self.items, space);
        let Ok(()) = self.items.push(LostItem { number, path, body }) else {
            unreachable!();
        };
    }

    /// Drops the bytes of this number.
    pub(crate) fn forget(&mut self, number: u32)
        ensures { self.new ≡ without_number number self.old }
    {
        self.items.retain(|item| item.number != number);
    }
}
