/// The members that a history document has somewhere.
#[derive(Clone, Copy, Debug, PartialEq, Eq)]
pub enum Member {
    First,
    Last,
    Gate,
    Api,
    Field,
    Spell,
    Name,
    Since,
    Removed,
    Stage,
    Default,
    Locked,
    Group,
    Version,
    Resource,
    Event,
    Kind,
    Singular,
    Namespaced,
    Enabled,
    Removal,
    Replacement,
    Id,
    FieldType,
    Required,
    Path,
    Form,
}

impl Member {
    ghost use Rattle.std.specs.Prelude.{◌≡◌};
    ghost use Rattle.history_reader.specs.Names.{member_name};

    /// The name by which documents have the member.
    pub fn name(self) -> &'static str
        ensures { result.now ≡ member_name self }
    {
        match self {
            Member::First => "first",
            Member::Last => "last",
            Member::Gate => "gate",
            Member::Api => "api",
            Member::Field => "field",
            Member::Spell => "spell",
            Member::Name => "name",
            Member::Since => "since",
            Member::Removed => "removed",
            Member::Stage => "stage",
            Member::Default => "default",
            Member::Locked => "locked",
            Member::Group => "group",
            Member::Version => "version",
            Member::Resource => "resource",
            Member::Event => "event",
            Member::Kind => "kind",
            Member::Singular => "singular",
            Member::Namespaced => "namespaced",
            Member::Enabled => "enabled",
            Member::Removal => "removal",
            Member::Replacement => "replacement",
            Member::Id => "id",
            Member::FieldType => "type",
            Member::Required => "required",
            Member::Path => "path",
            Member::Form => "form",
        }
    }
}
