use crate::found::Found;

/// What a handler wants behind a response.
#[derive(Clone, Copy, Debug, PartialEq, Eq, Drop)]
pub enum Next {
    /// The next response.
    Go,
    /// No more.
    Stop,
}

/// What takes the responses of a document, one after another.
pub trait Handler {
    ghost use Rattle.dav_walk.specs.declared.handler.Next.{Next};
    ghost use Rattle.dav_walk.specs.Lending.{Response};
    ghost use Rattle.dav_walk.specs.View.{items_of};

    /// From a state, lent a response, it may answer so and be in a state.
    ghost lends: { Self → Response → Next → Self → Type 0 };

    /// Takes a response, of which it may keep copies alone.
    fn response(&mut self, found: &Found<'_>) -> Next
        ensures { lends self.old (record { items = items_of found.now.nodes.now found.now.text.now; index = found.now.index }) result self.new };
}
