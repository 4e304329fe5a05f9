//! Flag texts, as `WidgetColor=true,SlowMode=false`: their pieces, and what the last piece of each name says.
#![tactic(auto)]

mod last;
mod name;
mod pass;
mod piece;
mod vocabulary;

pub use last::{LastPieces, last_pieces, said, said_in};
pub use name::Name;
pub use pass::{PairCause, PairFault, first_pair_fault};
pub use piece::{Piece, pieces};
pub use vocabulary::Vocabulary;
