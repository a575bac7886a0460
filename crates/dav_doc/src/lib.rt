//! DAV documents: which texts spell a tree, the byte machine of a scanner, and the laws that tie the two. No code.
//!
//! The texts are those of XML 1.0 with Namespaces, without a DOCTYPE: a byte order mark, a declaration, comments, processing
//! instructions, CDATA sections, empty tags, both quotes, blanks in tags, qualified names, the five named references and those by
//! number, line ends and `]]>`. To this grammar all bytes past ASCII are alike, and bytes below the space are taken in text. That the
//! text is of characters in UTF-8 is a grammar and a machine of its own, with the same laws. The law `documents` is on both: a front
//! that neither machine refuses has one continuation that is a document to both.
#![tactic(auto)]

mod laws;

pub use laws::{
    alive, bad, bad_places, characters, characters_go_on, complete, documents, examples, one_tree,
    so_far, sound,
};
