ghost use Rattle.std.specs.Prelude.{◌≡◌, ℕ};
ghost use Rattle.http_header.specs.FieldValue.{FieldValue};
ghost use Rattle.http_header.specs.HeaderMap.{Entries};
ghost use Rattle.dav_text.specs.declared.method.Method.{Method};
ghost use Rattle.dav_text.specs.declared.tag.Seen.{Seen};
ghost use Rattle.dav_verbs.specs.Seen.{IsSeenAfter};

/// A law: what is known after a reply is one.
pub fn one_seen()
    ensures { (seen : Seen) (method : Method) (status : ℕ) (fields : Entries FieldValue) (one other : Seen)
        → IsSeenAfter seen method status fields one → IsSeenAfter seen method status fields other → one ≡ other }
{}
