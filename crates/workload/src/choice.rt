//! What draws choose for a request.
ghost use Rattle.std.specs.Prelude.{◌≡◌, ◌<◌, IfOk, IfSome, OnOk};
ghost use Rattle.fields.specs.Fits.{Fits};
ghost use Rattle.fields.specs.Table.{IdsRise};
ghost use Rattle.workload.specs.Requests.{action_of, behind_chosen, chosen, has_body};

use crate::draws::Draws;
use crate::values::{drawn_fields, numbered_text};
use basis::Memory;
use fields::{FieldRow, Fields};
use minor_version::Text;
use std::alloc::Global;

/// What a request does with objects of a resource.
#[derive(Clone, Copy, Debug, PartialEq, Eq)]
pub enum Action {
    Create,
    Replace,
    ReadOne,
    ReadAll,
    Remove,
}

/// What a request does, with which object, and the fields that it gives the object, if it has a body.
#[derive(Debug, Drop)]
pub struct Choice {
    pub action: Action,
    pub name: Text,
    pub fields: Option<Fields>,
}

impl Action {
    // The action that a number below 8 stands for.
    fn of_number(number: usize) -> Self
        requires { number < 8 }
        ensures { result ≡ action_of number }
    {
        match number {
            0..=2 => Action::Create,
            3 | 4 => Action::Replace,
            5 => Action::ReadOne,
            6 => Action::ReadAll,
            _ => Action::Remove,
        }
    }

    /// Whether the request has a body.
    fn has_body(self) -> bool
        ensures { result ≡ has_body self }
    {
        matches!(self, Action::Create | Action::Replace)
    }
}

/// What the next draws choose, for objects with these rows.
pub(crate) fn choose(alloc: Global, rows: &[FieldRow], draws: &mut Draws) -> Result<Choice, Memory>
    requires { IdsRise rows.now }
    ensures value { IfOk result (λ c. c ≡ chosen rows.now draws.old.x) }
    ensures after { OnOk result (draws.new.x ≡ behind_chosen rows.now draws.old.x) }
    ensures fits { IfOk result (λ c. IfSome c.fields (Fits rows.now)) }
{
    let action = Action::of_number(draws.draw(8));
    let name = numbered_text(alloc, "w", draws.draw(500))?;
    let fields = if action.has_body() {
        Some(drawn_fields(alloc, rows, draws)?)
    } else {
        None
    };
    Ok(Choice {
        action,
        name,
        fields,
    })
}
