ghost use Rattle.std.specs.Prelude.{◌≡◌, ◌↔◌, IsTrue, option_map};
ghost use Rattle.request_target.specs.Resources.{IsTableOf};
ghost use Rattle.request_target.specs.Once.{IsTableOf-prop};

use fields::VersionTable;
use http_front::Verb;
use lifecycle::ApiName;
use release_view::ServedVersion;

/// A version of a resource as it is served, and its table, by which its objects are read and shown.
#[derive(Clone, Copy, Debug)]
pub struct Resource<'a> {
    pub served: &'a ServedVersion,
    pub table: &'a VersionTable,
    pub ghost own: { IsTableOf served.now table.now } by { IsTableOf-prop served.now table.now },
}

/// What a path asks for, of what is served. A namespace is empty where there is none.
#[derive(Clone, Copy, Debug)]
pub enum Target<'a> {
    /// The page of the three releases.
    Releases,
    /// The page of the gates' values.
    Gates,
    /// The list of groups.
    Groups,
    /// A group, by its name.
    Group(&'a [u8]),
    /// The resources of a version, by its group and its name.
    Resources(&'a [u8], &'a [u8]),
    /// All objects of a resource.
    Everywhere(Resource<'a>),
    /// The objects of a resource in a namespace.
    Inside(Resource<'a>, &'a [u8]),
    /// An object of a resource, by its namespace and its name.
    Object(Resource<'a>, &'a [u8], &'a [u8]),
}

/// The methods that may be used.
#[derive(Clone, Copy, Debug, PartialEq, Eq)]
pub enum Methods {
    /// GET.
    Read,
    /// GET and POST.
    Collection,
    /// DELETE, GET and PUT.
    Single,
}

impl<'a> Resource<'a> {
    ghost use Rattle.lifecycle.specs.Entry.{named};
    ghost use Rattle.release_view.specs.Served.{shown_name};

    /// The name of the version.
    pub fn name(self) -> ApiName<'a>
        ensures { named result ≡ shown_name self.entry.served.now }
    {
        ApiName {
            group: self.served.group.bytes(),
            version: self.served.version.bytes(),
            resource: self.served.resource.bytes(),
        }
    }
}

impl<'a> Target<'a> {
    ghost use Rattle.request_target.specs.Methods.{methods};
    ghost use Rattle.request_target.specs.Targets.{asked, resource_of, resource_seen};

    /// The methods that may be used on it.
    pub fn methods(self) -> Methods
        ensures { result ≡ methods (asked self.entry) }
    {
        match self {
            Target::Everywhere(of) => if of.served.namespaced {
                Methods::Read
            } else {
                Methods::Collection
            },
            Target::Inside(_, _) => Methods::Collection,
            Target::Object(_, _, _) => Methods::Single,
            _ => Methods::Read,
        }
    }

    /// The resource of which objects are asked for. None of a page.
    pub fn resource(self) -> Option<Resource<'a>>
        ensures { option_map resource_seen result ≡ resource_of (asked self.entry) }
    {
        match self {
            Target::Everywhere(of) => Some(of),
            Target::Inside(of, _) => Some(of),
            Target::Object(of, _, _) => Some(of),
            _ => None,
        }
    }
}

impl Methods {
    ghost use Rattle.request_target.specs.Methods.{Allows, allow_text};

    /// Whether the method is one of them.
    pub fn allow(self, verb: Verb) -> bool
        ensures { IsTrue result ↔ Allows self verb }
    {
        match self {
            Methods::Read => matches!(verb, Verb::Get),
            Methods::Collection => matches!(verb, Verb::Get | Verb::Post),
            Methods::Single => matches!(verb, Verb::Delete | Verb::Get | Verb::Put),
        }
    }

    /// Their names, as the `Allow` line tells them.
    pub fn text(self) -> &'static str
        ensures { result.now ≡ allow_text self }
    {
        match self {
            Methods::Read => "GET",
            Methods::Collection => "GET, POST",
            Methods::Single => "DELETE, GET, PUT",
        }
    }
}
