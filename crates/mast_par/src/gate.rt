//! Who is told of each piece.

/// Is told of each piece before its call, by its number, which counts from 0. It changes nothing of the answers.
pub trait Gate {
    /// The call on the piece with this number comes next, in the thread that tells it.
    fn begin(&self, piece: usize);
}

/// A gate that does nothing.
pub struct OpenGate;

impl Gate for OpenGate {
    fn begin(&self, piece: usize) {
        let _ = piece;
    }
}
