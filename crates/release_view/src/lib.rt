//! What a release knows and serves: its tables, with the values of its gates and the versions that are switched on.
#![tactic(auto)]

mod build;
mod by_config;
mod known;
mod law;
mod order;
mod release;
mod served;

pub use build::view_at;
pub use by_config::{default_view, view_by_config};
pub use law::{
    later_view_reads_live, same_tables_view_alike, tables_determine_view, texts_make_view,
};
pub use release::{View, versions_spell_alike, view_finds_each, view_is_kept, view_tells_tables};
pub use served::ServedVersion;
