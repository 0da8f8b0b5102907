//! The lexer of CQL: which tokens a line has, where each stands, and what its text means.
#![tactic(auto)]

mod characters;
mod closings;
mod constants;
mod fault;
mod gaps;
mod laws;
mod lexer;
mod names;
mod numbers;
mod piece;
mod quotes;
mod rules;
mod texts;
mod token;

pub use constants::{blob_of, uuid_of};
pub use fault::LexFault;
pub use laws::{one_reading, quotes_round_trip, well_placed};
pub use lexer::tokens;
pub use names::{Name, name_in, name_of, short_name_at};
pub use numbers::{number_of, ratio_of};
pub use piece::Piece;
pub use quotes::{quoted_name_of, string_of};
pub use rules::{piece_at, plain_mark_at};
pub use token::{Mark, Token, TokenKind};
