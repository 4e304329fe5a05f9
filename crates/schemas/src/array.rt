/// The arrays of a history document, and its top level, in the order of the document's rules.
#[derive(Clone, Copy, Debug, PartialEq, Eq)]
pub enum Array {
    Top,
    Gate,
    Api,
    Field,
    Spell,
}

impl Array {
    ghost use Rattle.std.specs.Prelude.{◌≡◌};
    ghost use Rattle.schemas.specs.Arrays.{array_name};

    /// The name under which the document has the array, or `top`.
    pub fn name(self) -> &'static str
        ensures { result.now ≡ array_name self }
    {
        match self {
            Array::Top => "top",
            Array::Gate => "gate",
            Array::Api => "api",
            Array::Field => "field",
            Array::Spell => "spell",
        }
    }
}
