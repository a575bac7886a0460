//! The parts of a scanner of DAV documents: what each byte does to a character, a reference, a name, a declaration, a comment or an
//! instruction, a CDATA section, a start tag with its namespaces, and an end tag, as steps of the machine of `dav_doc`.
#![tactic(auto)]

pub mod aside;
pub mod character;
pub mod choice;
pub mod declaration;
pub mod end;
pub mod few;
pub mod kind;
pub mod markup;
pub mod name;
pub mod outer;
pub mod reference;
pub mod run;
pub mod scope;
pub mod section;
pub mod stretch;
pub mod tag;
