ghost use Rattle.std.specs.Prelude.{◌≡◌};
ghost use Rattle.conversion.specs.Causes.{cause_text};

use basis::Memory;
use fields::Path;
use std::error::Error;
use std::fmt;

/// What is wrong with the JSON at a path.
#[derive(Clone, Copy, Debug, PartialEq, Eq)]
pub enum ReadCause {
    NotObject,
    NotBool,
    NotInt,
    NotText,
    NotList,
    NotDecimal,
}

impl ReadCause {
    /// The words in which the cause is told.
    pub fn text(self) -> &'static str
        ensures { result.now ≡ cause_text self }
    {
        match self {
            ReadCause::NotObject => "not an object",
            ReadCause::NotBool => "not a boolean",
            ReadCause::NotInt => "not a whole number",
            ReadCause::NotText => "not a text",
            ReadCause::NotList => "not a list of texts",
            ReadCause::NotDecimal => "not a decimal",
        }
    }
}

impl fmt::Display for ReadCause {
    fn fmt<W: fmt::Write>(&self, f: &mut fmt::Formatter<W>) -> fmt::Result {
        f.write_str(self.text())
    }
}

/// Why a JSON tree couldn't be read.
#[derive(Debug, Drop)]
pub enum ReadFault {
    /// A field isn't readable: the path up to what is wrong, and the cause.
    Bad { path: Path, cause: ReadCause },
    /// Memory ran out.
    Memory,
}

impl From<Memory> for ReadFault {
    ghost use Rattle.std.specs.Prelude.{◌≡◌};
    ghost use Rattle.conversion.specs.declared.fault.ReadFault.{ReadFault};

    ghost from_gives = { λ _ fault. fault ≡ ReadFault.Memory };

    fn from(_memory: Memory) -> ReadFault {
        ReadFault::Memory
    }
}

impl fmt::Display for ReadFault {
    fn fmt<W: fmt::Write>(&self, f: &mut fmt::Formatter<W>) -> fmt::Result {
        match self {
            ReadFault::Bad { path, cause } => {
                for (i, name) in path.items().iter().enumerate() {
                    f.write_str(if i > 0 { "." } else { "" })?;
                    f.write_str(name.as_str())?;
                }
                write!(f, ": {cause}")
            }
            ReadFault::Memory => f.write_str("out of memory"),
        }
    }
}

impl Error for ReadFault {}
