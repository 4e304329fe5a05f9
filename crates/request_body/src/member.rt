ghost use Rattle.std.specs.Prelude.{◌≡◌};
ghost use Rattle.request_body.specs.Members.{member_text};

/// A member of a request's body that says which object it is about, or which one it is meant for.
#[derive(Clone, Copy, Debug, PartialEq, Eq)]
pub enum Member {
    /// `apiVersion`.
    Version,
    /// `kind`.
    Kind,
    /// `metadata`.
    Metadata,
    /// `metadata.name`.
    Name,
    /// `metadata.namespace`.
    Namespace,
    /// `metadata.resourceVersion`.
    Revision,
    /// `metadata.uid`.
    Uid,
    /// `preconditions`.
    Preconditions,
    /// `preconditions.resourceVersion`.
    WantedRevision,
    /// `preconditions.uid`.
    WantedUid,
}

impl Member {
    /// The member as a refusal tells it: its name, behind that of the member that it is in.
    pub fn text(self) -> &'static str
        ensures { result.now ≡ member_text self }
    {
        match self {
            Member::Version => "apiVersion",
            Member::Kind => "kind",
            Member::Metadata => "metadata",
            Member::Name => "metadata.name",
            Member::Namespace => "metadata.namespace",
            Member::Revision => "metadata.resourceVersion",
            Member::Uid => "metadata.uid",
            Member::Preconditions => "preconditions",
            Member::WantedRevision => "preconditions.resourceVersion",
            Member::WantedUid => "preconditions.uid",
        }
    }
}
