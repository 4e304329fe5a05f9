ghost use Rattle.object_convert.specs.Laws.{HasOneAnswer};

use release_view::View;

/// A text has one answer: it is converted to at most one object, or has at most one fault, and not both. Want of
/// memory, which can meet any text, is left out. Nothing is computed here; the law is the contract.
pub fn object_has_one_answer(view: &View, object: &str, to: &str)
    ensures { HasOneAnswer view.now.versions object.now to.now }
{
    let _view = view;
}
