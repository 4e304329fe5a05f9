//! How long the text can be that is stored of an object which a request gives.
#![tactic(auto)]

mod law;

pub use law::{
    accepted_history_is_shaped, compact_text_is_within, held_texts_are_within, puts_are_within,
    shown_body_is_within, shown_entry_is_within, shown_text_is_within, texts_are_within,
};
