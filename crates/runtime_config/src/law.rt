ghost use Rattle.std.specs.Prelude.{◌≡◌, ◌≤◌, ℕ};
ghost use Rattle.lifecycle.specs.Same.{AreSameVersions};
ghost use Rattle.lifecycle.specs.Tables.{cutoff};
ghost use Rattle.runtime_config.specs.Laws.{IsTakenAlike, HasFaultsOfCut, AreIntroduced, HasUnforeseenFaults, HasOneServedSet, HasOneFault, IsFaultlessWhereValid, IsValidOrFaulty};

use lifecycle::ApiEntry;
use minor_version::Minor;

/// Tables that say the same of each version accept the same texts, which leave the same versions served. Nothing is
/// computed here; the law is the contract.
pub fn texts_by_same_versions(tables: &[ApiEntry], others: &[ApiEntry], text: &[u8])
    requires { AreSameVersions tables.now others.now }
    ensures { IsTakenAlike tables.now others.now text.now }
{}

/// The law of emulation for runtime configurations: where a history is cut at the release o, the same texts are
/// accepted at each release e up to o, and leave the same versions served. Nothing is computed here; the law is the
/// contract.
pub fn emulation_of_config(entries: &[ApiEntry], cut: &[ApiEntry], o: Minor, text: &[u8])
    requires { cut.now ≡ cutoff entries.now o }
    ensures taken { (e : ℕ) → e ≤ o →
        IsTakenAlike (cutoff entries.now e) (cutoff cut.now e) text.now }

    // A key that names only later versions may be one that names nothing, and at the cut is one.
    ensures faults { (e : ℕ) → e ≤ o → HasFaultsOfCut entries.now cut.now e text.now }
    ensures at_cut { AreIntroduced entries.now →
        HasUnforeseenFaults entries.now cut.now o text.now }
{}

/// A text has one answer at the release e: it is valid, with one list of what it leaves served and no fault, or it
/// isn't, and has one fault, in place and cause. Want of memory, which can meet any text, is left out. Nothing is
/// computed here; the law is the contract.
pub fn config_has_one_answer(entries: &[ApiEntry], e: Minor, text: &[u8])
    ensures one_set { HasOneServedSet entries.now e text.now }
    ensures one_fault { HasOneFault entries.now e text.now }
    ensures either { IsFaultlessWhereValid entries.now e text.now }
    ensures some { IsValidOrFaulty entries.now e text.now }
{}
