//! The same call on each piece of a list, by several threads.
//! What the crates above rest on: `each_piece` gives the answers of all pieces in order, for any number of workers.
//! The words of its contract stand in specs/Pieces.antt.
//! It must not know what a piece is, what is asked of it, or who looks on at the gate.
#![tactic(auto)]

mod gate;
mod pieces;

pub use gate::{Gate, OpenGate};
pub use pieces::each_piece;
