//! What goes through the channel.
use chunk_core::{How, Load};

/// A piece of a stream, or its end.
#[derive(Drop)]
pub enum Body {
    Load(Load),
    End(How),
}

/// A message of a stream.
#[derive(Drop)]
pub struct Msg {
    pub stream: u32,
    pub body: Body,
}

/// The queue was full. The message comes back.
#[derive(Drop)]
pub struct Full(pub Msg);
