//! A session over the store of a front's disk: the store is opened, a server starts from its records, and the front's
//! connections are served.
#![tactic(auto)]

mod fault;
mod serving;

pub use fault::StoreFault;
pub use serving::serve_store;
