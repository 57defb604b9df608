//! A handle on the queues, which owns them with the other handles.
ghost use Rattle.std.specs.Prelude.{◌≡◌, IfOk, List};
ghost use Rattle.channel_bounded.specs.Ends.{HubSeen};

use crate::hub::TopicHub;
use channel_bounded::May;
use std::alloc::{AllocError, Global};
use std::marker::Model;
use std::sync::Arc;

/// A handle on a topic's queues, which are there for as long as one of its handles. Contracts see the queues.
#[derive(Drop)]
pub struct TopicRef<A: May> {
    hub: Arc<TopicHub<A>, Global>,
}

impl<A: May> Model for TopicRef<A> {
    ghost use Rattle.std.specs.Prelude.{List};
    ghost use Rattle.std.specs.Arc.{arc_value};
    ghost use Rattle.channel_bounded.specs.Ends.{HubSeen};

    ghost Value = { List HubSeen };

    ghost view = { λ handle. arc_value handle.hub };
}

impl<A: May> TopicRef<A> {
    /// The first handle on a topic's queues.
    pub fn new(alloc: Global, hub: TopicHub<A>) -> Result<TopicRef<A>, AllocError>
        ensures { IfOk result (λ handle. handle ≡ hub) }
    {
        let hub = Arc::new(alloc, hub)?;
        Ok(TopicRef { hub })
    }

    /// A further handle on the same queues.
    pub fn share(&self) -> Result<TopicRef<A>, AllocError>
        ensures { IfOk result (λ handle. handle ≡ self.now) }
    {
        let hub = Arc::try_clone(&self.hub)?;
        Ok(TopicRef { hub })
    }

    /// The queues.
    pub fn get(&self) -> &TopicHub<A>
        ensures { result.now ≡ self.now }
    {
        &self.hub
    }
}
