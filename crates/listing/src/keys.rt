//! The names at which fields and spellings are listed.
ghost use Rattle.std.specs.Prelude.{◌≡◌};
ghost use Rattle.listing.specs.Listing.{name_of};
ghost use Rattle.listing.specs.Keys.{resource_of_field, version_of_spell};

use crate::Parts;
use fields::{Field, Spell};

/// The resource of the field.
pub fn resource_of_field<'a>(field: &'a Field) -> Parts<'a>
    ensures { resource_of_field field.now ≡ name_of result.0.now result.1.now result.2.now }
{
    (field.group.bytes(), field.resource.bytes(), &[])
}

/// The version of the spelling.
pub fn version_of_spell<'a>(spell: &'a Spell) -> Parts<'a>
    ensures { version_of_spell spell.now ≡ name_of result.0.now result.1.now result.2.now }
{
    (
        spell.group.bytes(),
        spell.version.bytes(),
        spell.resource.bytes(),
    )
}
