//! A history from the bytes of a document.
ghost use Rattle.std.specs.Prelude.{◌≡◌, ◌⊎◌, IfOk, IfErr, IfSome};
ghost use Rattle.std.specs.List.{AllByRecursion};
ghost use Rattle.toml.specs.View.{table_view};
ghost use Rattle.toml.specs.Data.{get_member};
ghost use Rattle.schemas.specs.Shapes.{IsMinor};
ghost use Rattle.history_reader.specs.Names.{member_name};
ghost use Rattle.history_reader.specs.Demands.{IsReleaseText};
ghost use Rattle.history_reader.specs.Tests.{Passes, document_tests};
ghost use Rattle.history_reader.specs.Meaning.{HoldsRelease, IsHistory, MeansHistory, IsRefused};
ghost use Rattle.history_reader.specs.declared.read.HistoryFault.TheVariants.{Memory as NoMemory, BadEntry};

use crate::entries::entries_of;
use crate::fault::{Fault, document_fault};
use crate::member::Member;
use crate::tree::{items_of_array, release_of, value_of};
use basis::Memory;
use fields::{Field, Spell};
use gate_spec::GateEntry;
use lifecycle::ApiEntry;
use minor_version::{Minor, Text};
use schemas::{Array, History};
use std::alloc::Global;
use std::error::Error;
use std::fmt;
use toml::Table;

/// The greatest length of a history document, in bytes.
pub const LONGEST_DOCUMENT: usize = 1_048_576;

/// Why bytes are no history document.
#[derive(Debug, Drop)]
pub enum HistoryFault {
    /// Memory ran out.
    Memory,
    /// The document has more than 1,048,576 bytes.
    TooLong,
    /// The bytes aren't TOML.
    NotToml,
    /// A member isn't as it must be. Entries count from 1; `Top` has the index 0.
    BadEntry {
        array: Array,
        index: u64,
        member: Text,
    },
}

impl fmt::Display for HistoryFault {
    fn fmt<W: fmt::Write>(&self, f: &mut fmt::Formatter<W>) -> fmt::Result {
        match self {
            HistoryFault::Memory => f.write_str("out of memory"),
            HistoryFault::TooLong => f.write_str("too long"),
            HistoryFault::NotToml => f.write_str("not TOML"),
            HistoryFault::BadEntry {
                array,
                index,
                member,
            } => {
                let array = array.name();
                let member = member.as_str();
                write!(f, "entry {array} {index} member {member}")
            }
        }
    }
}

impl Error for HistoryFault {}

/// The release of a member that is missing or holds its text.
fn optional_release(table: &Table, member: Member) -> Option<Minor>
    requires { IfSome (get_member (member_name member) (table_view table.now)) IsReleaseText }
    ensures held { HoldsRelease (member_name member) (table_view table.now) result }
    ensures shaped { IfSome result IsMinor }
{
    match value_of(table, member) {
        Some(_) => Some(release_of(table, member)),
        None => None,
    }
}

/// The history that a document is in which there is no fault.
fn history_of(alloc: Global, table: &Table) -> Result<History, Memory>
    requires { AllByRecursion Passes (document_tests (table_view table.now)) }
    ensures { IfOk result (IsHistory (table_view table.now)) }
{
    let first = optional_release(table, Member::First);
    let last = optional_release(table, Member::Last);
    let gates = entries_of::<GateEntry>(alloc, items_of_array(table, Array::Gate))?;
    let apis = entries_of::<ApiEntry>(alloc, items_of_array(table, Array::Api))?;
    let fields = entries_of::<Field>(alloc, items_of_array(table, Array::Field))?;
    let spells = entries_of::<Spell>(alloc, items_of_array(table, Array::Spell))?;
    Ok(History {
        first,
        last,
        gates,
        apis,
        fields,
        spells,
    })
}

/// The fault as it is told, or want of memory.
fn told(alloc: Global, fault: &Fault<'_>) -> HistoryFault
    ensures { (result ≡ NoMemory)
        ⊎ (result ≡ BadEntry fault.now.array fault.now.index fault.now.member.now) }
{
    match Text::from_str(alloc, fault.member) {
        Ok(member) => HistoryFault::BadEntry {
            array: fault.array,
            index: fault.index,
            member,
        },
        Err(_) => HistoryFault::Memory,
    }
}

/// The release history that a document is: TOML of at most 1,048,576 bytes by the member table.
pub fn read_history(alloc: Global, text: &[u8]) -> Result<History, HistoryFault>
    ensures ok { IfOk result (MeansHistory text.now) }
    ensures refused { IfErr result (IsRefused text.now) }
{
    if text.len() > LONGEST_DOCUMENT {
        return Err(HistoryFault::TooLong);
    }
    match toml::table_from_slice(alloc, text) {
        Ok(table) => match document_fault(&table) {
            Some(fault) => Err(told(alloc, &fault)),
            None => match history_of(alloc, &table) {
                Ok(history) => Ok(history),
                Err(_) => Err(HistoryFault::Memory),
            },
        },
        Err(error) => {
            if error.is_memory() {
                Err(HistoryFault::Memory)
            } else {
                Err(HistoryFault::NotToml)
            }
        }
    }
}
