use basis::Memory;
use conversion::ReadCause;
use fields::Path;
use std::error::Error;
use std::fmt;

/// Why an object wasn't converted.
#[derive(Debug, Drop)]
pub enum ConvertFault {
    /// The text isn't that of a JSON object.
    NotAnObject,
    /// `apiVersion` and `kind` name no version that the release reads.
    UnknownVersion,
    /// Something of the object isn't readable: the path up to what is wrong, and the cause.
    Bad { path: Path, cause: ReadCause },
    /// The object's resource has no such version that the release reads.
    UnknownTarget,
    /// Memory ran out.
    Memory,
}

impl From<Memory> for ConvertFault {
    ghost use Rattle.std.specs.Prelude.{◌≡◌};
    ghost use Rattle.object_convert.specs.declared.fault.ConvertFault.TheVariants.{Memory as NoMemory};

    ghost from_gives = { λ _ fault. fault ≡ NoMemory };

    fn from(_memory: Memory) -> ConvertFault {
        ConvertFault::Memory
    }
}

impl fmt::Display for ConvertFault {
    fn fmt<W: fmt::Write>(&self, f: &mut fmt::Formatter<W>) -> fmt::Result {
        match self {
            ConvertFault::NotAnObject => f.write_str("object: not a JSON object"),
            ConvertFault::UnknownVersion => f.write_str("object: unknown version"),
            ConvertFault::Bad { path, cause } => {
                f.write_str("object: ")?;
                for (i, name) in path.items().iter().enumerate() {
                    f.write_str(if i > 0 { "." } else { "" })?;
                    f.write_str(name.as_str())?;
                }
                write!(f, ": {cause}")
            }
            ConvertFault::UnknownTarget => f.write_str("to: unknown version"),
            ConvertFault::Memory => f.write_str("out of memory"),
        }
    }
}

impl Error for ConvertFault {}
