use crate::history::History;
use minor_version::{Minor, floor};
use std::marker::Model;

/// A history that keeps the rules HR1 to HR16, seen as that history. Its type keeps that it does.
#[derive(Debug, Drop)]
pub struct Accepted {
    history: History,
}

impl Model for Accepted {
    ghost use Rattle.schemas.specs.Dated.{Dated};

    ghost Value = { Dated };

    ghost use Rattle.schemas.specs.AcceptedFields.{history_of, MeetsRules};

    ghost view = { history_of };

    ghost invariant = { MeetsRules };
}

impl Accepted {
    ghost use Rattle.std.specs.Prelude.{◌≡◌};
    ghost use Rattle.minor_version.specs.Ranges.{floor_of};
    ghost use Rattle.schemas.specs.Rules.{IsAccepted, first_of, last_of};

    /// The history, known to keep the rules.
    pub fn take(h: History) -> Accepted
        requires { IsAccepted h }
        ensures same { result ≡ h }
        ensures accepted { IsAccepted result }
    {
        Accepted { history: h }
    }

    /// The history that keeps the rules.
    pub fn history(&self) -> &History
        ensures same { result.now ≡ self.now }
        ensures accepted { IsAccepted self.now }
    {
        &self.history
    }

    /// The first release of which the history speaks.
    pub fn first(&self) -> Minor
        ensures named { self.now.first ≡ Some result }
        ensures value { result ≡ first_of self.now }
        ensures accepted { IsAccepted self.now }
    {
        self.history.first.unwrap()
    }

    /// The last release of which the history speaks.
    pub fn last(&self) -> Minor
        ensures named { self.now.last ≡ Some result }
        ensures value { result ≡ last_of self.now }
        ensures accepted { IsAccepted self.now }
    {
        self.history.last.unwrap()
    }

    /// The lowest release that may be emulated: the last one less 3, but not below the first.
    pub fn floor(&self) -> Minor
        ensures value { result ≡ floor_of (first_of self.now) (last_of self.now) }
        ensures accepted { IsAccepted self.now }
    {
        floor(self.first(), self.last())
    }
}
