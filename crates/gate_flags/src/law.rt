ghost use Rattle.std.specs.Prelude.{◌≡◌, ◌≤◌, ℕ};
ghost use Rattle.gate_spec.specs.Gates.{RisesInDate, cutoff};
ghost use Rattle.gate_spec.specs.Same.{AreSameGates};
ghost use Rattle.gate_flags.specs.Laws.{IsTakenAlike, HasFaultsOfCut, HasUnforeseenFaults, HasOneSetOfValues, HasOneFault, IsFaultlessWhereValid, IsValidOrFaulty};

use gate_spec::GateEntry;
use minor_version::Minor;

/// Tables that say the same of each gate accept the same texts, with the same values and rows. Nothing is computed
/// here; the law is the contract.
pub fn texts_by_same_gates(tables: &[GateEntry], others: &[GateEntry], text: &[u8])
    requires { AreSameGates tables.now others.now }
    ensures { IsTakenAlike tables.now others.now text.now }
{}

/// The law of emulation for gates: where a history is cut at the release o, the same texts are accepted at each
/// release e up to o, with the same values and rows. So a server with the whole history that emulates e takes gate
/// texts as a server does that knows no entry after o. Nothing is computed here; the law is the contract.
pub fn emulation_of_gates(entries: &[GateEntry], cut: &[GateEntry], o: Minor, text: &[u8])
    requires rises { RisesInDate entries.now }
    requires cut { cut.now ≡ cutoff entries.now o }
    ensures rises { RisesInDate cut.now }
    ensures taken { (e : ℕ) → e ≤ o →
        IsTakenAlike (cutoff entries.now e) (cutoff cut.now e) text.now }

    // A gate that comes only later may be one that never comes, and at the cut is one.
    ensures faults { (e : ℕ) → e ≤ o → HasFaultsOfCut entries.now cut.now e text.now }
    ensures at_cut { HasUnforeseenFaults entries.now cut.now o text.now }
{}

/// A text has one answer at the release e: it is valid, with one set of values and no fault, or it isn't, and has one
/// fault, in place and cause. Want of memory, which can meet any text, is left out. Nothing is computed here; the law
/// is the contract.
pub fn text_has_one_answer(entries: &[GateEntry], e: Minor, text: &[u8])
    requires { RisesInDate entries.now }
    ensures one_set { HasOneSetOfValues (cutoff entries.now e) text.now }
    ensures one_fault { HasOneFault entries.now e text.now }
    ensures either { IsFaultlessWhereValid entries.now e text.now }
    ensures some { IsValidOrFaulty entries.now e text.now }
{}
