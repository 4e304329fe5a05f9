//! Fields of resources, how each version of a resource spells them, and what objects hold in them.
#![tactic(auto)]

mod field;
mod lawful;
mod map;
mod table;
mod value;

pub use field::{Field, FieldList, Form, Path, Spell, SpellList};
pub use lawful::{are_apart, begins_free, is_default_of, is_field_path, is_form_of};
pub use map::{FieldPair, Fields};
pub use table::{FieldRow, FieldRows, VersionTable};
pub use value::{FieldType, FieldValue, TextList, copy_of_texts};
