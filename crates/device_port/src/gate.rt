//! What a stream passes before each of its turns.

/// A place where a test can hold a stream.
pub trait Gate {
    fn pass(&self, stream: u32);
}

/// A gate that holds nobody.
#[derive(Clone, Copy, Debug)]
pub struct OpenGate;

impl Gate for OpenGate {
    fn pass(&self, _stream: u32) {}
}
