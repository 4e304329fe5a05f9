//! What follows from the definitions, each law as the contract of a function that does nothing.
ghost use Rattle.stored_state.specs.Laws.{HaveOneAnswer, RecoverWithin, HoldsWithin};

use object_store::Store;
use release_view::View;

/// Records that both releases read have none that stops a start; of others one is named, with one version and one release.
pub fn records_have_one_answer(view: &View, back: &View, store: &Store)
    ensures { HaveOneAnswer back.now view.now store.now.items }
{
    let _view = view;
    let _back = back;
    let _items = store.items();
}

/// No record that bytes give is above the revision that they give.
pub fn recovered_records_are_within(bytes: &[u8])
    ensures { RecoverWithin bytes.now }
{
    let _bytes = bytes;
}

/// No record of a store that holds what its entries leave is above its revision.
pub fn store_holds_within(store: &Store)
    ensures { HoldsWithin store.now }
{
    let _store = store;
}
