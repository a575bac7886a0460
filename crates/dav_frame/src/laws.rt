ghost use Rattle.std.specs.Prelude.{◌≡◌, ◌≢◌, ℕ, ◌↔◌, List, [], ◌++◌, length, take, drop};
ghost use Rattle.dav_text.specs.declared.method.Method.{Method};
ghost use Rattle.dav_frame.specs.Framing.{Outcome, Message, Gives, Faults, Framing, FromHeads, FromChunks, IsShortestDead, NeverHasChunk};
ghost use Rattle.dav_head.specs.Limit.{IsReached};
ghost use Rattle.dav_frame.specs.Reading.{Continues, FromPhase, Leads};
ghost use Rattle.dav_frame.specs.declared.fault.FrameFault.{FrameFault};
ghost use Rattle.dav_frame.specs.declared.phase.FinalHead.{FinalHead};
ghost use Rattle.dav_frame.specs.declared.phase.Phase.{Phase};

use crate::fault::FrameFault;

/// A law: one stream gives one outcome.
pub fn one_outcome()
    ensures { (method : Method) (stream : List ℕ) (one other : Outcome)
        → Framing method stream one → Framing method stream other → one ≡ other }
{}

/// A law: after interim heads of `before` bytes, what follows is no head where the limit stands before
/// no byte of the shortest front that no continuation makes a head.
pub fn place_of_no_reply()
    ensures { (method : Method) (before : ℕ) (stream : List ℕ) (size : ℕ) → IsShortestDead stream size
        → (FromHeads method before stream (Faults (FrameFault.NotAReply before))
        ↔ IsReached before (take size stream)) }
{}

/// A law: a chunk that begins at the offset `at` has its fault exactly where no continuation makes a
/// chunk of what there is of it, unless the body passes its limit before.
pub fn place_of_bad_chunk()
    ensures { (head : FinalHead) (before at : ℕ) (had stream : List ℕ) (outcome : Outcome)
        → FromChunks head before at had stream outcome → outcome ≢ Faults FrameFault.BodyLimit
        → (NeverHasChunk stream ↔ (outcome ≡ Faults (FrameFault.BadChunk at))) }
{}

/// A law: what the clauses of `ReplyReader` say of a whole stream. The bytes `got` have led to a
/// phase; then a piece is taken, or faults, or the stream ends.
pub fn pieces_join()
    ensures more { (method : Method) (got piece : List ℕ) (used : ℕ) (old new : Phase)
        → Continues method got old → Leads old piece new (drop used piece) → used ≡ length piece
        → Continues method (got ++ piece) new }
    ensures reply { (method : Method) (got piece left : List ℕ) (old new : Phase) (reply : Message)
        → Continues method got old → Leads old piece new left
        → ((rest : List ℕ) → FromPhase new rest (Gives reply rest))
        → (more : List ℕ) → Framing method ((got ++ piece) ++ more) (Gives reply (left ++ more)) }
    ensures fault { (method : Method) (got piece : List ℕ) (old : Phase) (fault : FrameFault)
        → Continues method got old → ((more : List ℕ) → FromPhase old (piece ++ more) (Faults fault))
        → (more : List ℕ) → Framing method ((got ++ piece) ++ more) (Faults fault) }
    ensures end { (method : Method) (got : List ℕ) (phase : Phase) (outcome : Outcome)
        → Continues method got phase → FromPhase phase [] outcome → Framing method got outcome }
{}
