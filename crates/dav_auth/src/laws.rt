ghost use Rattle.std.specs.Prelude.{◌≡◌, ℕ, List, codes};
ghost use Rattle.dav_text.specs.declared.method.Method.{Method};
ghost use Rattle.dav_auth.specs.Carried.{carried, AreSayable};
ghost use Rattle.dav_auth.specs.Digest.{digest};
ghost use Rattle.dav_auth.specs.Elements.{Challenges};
ghost use Rattle.dav_auth.specs.Field.{authorization_text};
ghost use Rattle.dav_auth.specs.Grammar.{Credentials, Parameter, Parameters};
ghost use Rattle.dav_auth.specs.declared.challenge.Challenge.{Challenge};
ghost use Rattle.dav_auth.specs.declared.piece.Piece.{Piece};
ghost use Rattle.dav_auth.specs.declared.secret.Secret.{Secret};
ghost use Rattle.dav_auth.specs.Quoted.{escape, unescape};

/// A law: the bytes between the quotes of a quoted string mean what was quoted.
pub fn quotes_undone()
    ensures { (bytes : List ℕ) → unescape (escape bytes) ≡ bytes }
{}

/// A law: the value of an Authorization field is credentials by RFC 9110 section 11.4, whose
/// parameters stand for what went in, where quoted strings can stand for it: it holds no control
/// but tabs.
pub fn value_carries()
    ensures { (challenge : Challenge) (secret : Secret) (method : Method) (uri : List ℕ) (nc : ℕ) (cnonce : List ℕ)
        → AreSayable challenge secret uri cnonce
        → Credentials (codes "Digest") (carried challenge secret uri nc cnonce (digest challenge secret method uri nc cnonce))
        (authorization_text challenge secret method uri nc cnonce) }
{}

/// A law: a text is one list of parameters at most.
pub fn one_reading()
    ensures { (text : List ℕ) (one other : List Parameter) → Parameters one text → Parameters other text → one ≡ other }
{}

/// A law: a text is one list of challenges at most.
pub fn one_list()
    ensures { (text : List ℕ) (one other : List Piece) → Challenges one text → Challenges other text → one ≡ other }
{}
