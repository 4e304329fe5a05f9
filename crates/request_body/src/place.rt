ghost use Rattle.std.specs.Prelude.{◌≡◌, IfOk, option_map};
ghost use Rattle.std.specs.Str.{IsUtf8};
ghost use Rattle.request_body.specs.Places.{place_of, place_seen, key_of};
ghost use Rattle.request_target.specs.Targets.{asked};

use basis::Memory;
use minor_version::Text;
use object_journal::Key;
use request_target::{Resource, Target};
use std::alloc::Global;

/// Where objects are read or written: a resource, a namespace, which is empty where there is none, and the name of an
/// object, where the path has one.
#[derive(Clone, Copy, Debug)]
pub struct Place<'a> {
    pub of: Resource<'a>,
    pub namespace: &'a [u8],
    pub own: Option<&'a [u8]>,
}

fn text_of(alloc: Global, bytes: &[u8]) -> Result<Text, Memory>
    requires { IsUtf8 bytes.now }
    ensures { IfOk result (λ t. t ≡ bytes.now) }
{
    match Text::copy(alloc, bytes) {
        Ok(text) => Ok(text),
        Err(_) => Err(Memory),
    }
}

impl<'a> Place<'a> {
    /// The place that is asked for, if what is asked for are objects.
    pub fn of_target(target: Target<'a>) -> Option<Place<'a>>
        ensures { option_map place_seen result ≡ place_of (asked target.entry) }
    {
        match target {
            Target::Everywhere(of) => Some(Place {
                of,
                namespace: &[],
                own: None,
            }),
            Target::Inside(of, namespace) => Some(Place {
                of,
                namespace,
                own: None,
            }),
            Target::Object(of, namespace, name) => Some(Place {
                of,
                namespace,
                own: Some(name),
            }),
            Target::Releases
            | Target::Gates
            | Target::Groups
            | Target::Group(_)
            | Target::Resources(_, _) => None,
        }
    }

    /// The key of the place's object with this name. Namespace and name are UTF-8.
    pub fn key(self, alloc: Global, name: &[u8]) -> Result<Key, Memory>
        requires namespace { IsUtf8 self.namespace.now }
        requires name { IsUtf8 name.now }
        ensures { IfOk result (λ key. key ≡ key_of (place_seen self.entry) name.now) }
    {
        Ok(Key {
            group: self.of.served.group.duplicate(alloc)?,
            resource: self.of.served.resource.duplicate(alloc)?,
            namespace: text_of(alloc, self.namespace)?,
            name: text_of(alloc, name)?,
        })
    }
}
