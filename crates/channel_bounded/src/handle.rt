//! A handle on the queue, which owns it with the other handles.
ghost use Rattle.std.specs.Prelude.{◌≡◌, IfOk};

use crate::hub::Hub;
use crate::rule::May;
use std::alloc::{AllocError, Global};
use std::marker::Model;
use std::sync::Arc;

/// A handle on a hub, which is there for as long as one of its handles. Contracts see the hub.
#[derive(Drop)]
pub struct HubRef<A: May> {
    hub: Arc<Hub<A>, Global>,
}

impl<A: May> Model for HubRef<A> {
    ghost use Rattle.channel_bounded.specs.Ends.{HubSeen};
    ghost use Rattle.std.specs.Arc.{arc_value};

    ghost Value = { HubSeen };

    ghost view = { λ handle. arc_value handle.hub };
}

impl<A: May> HubRef<A> {
    /// The first handle on a hub.
    pub fn new(alloc: Global, hub: Hub<A>) -> Result<HubRef<A>, AllocError>
        ensures { IfOk result (λ handle. handle ≡ hub) }
    {
        let hub = Arc::new(alloc, hub)?;
        Ok(HubRef { hub })
    }

    /// A further handle on the same hub.
    pub fn share(&self) -> Result<HubRef<A>, AllocError>
        ensures { IfOk result (λ handle. handle ≡ self.now) }
    {
        let hub = Arc::try_clone(&self.hub)?;
        Ok(HubRef { hub })
    }

    /// The hub.
    pub fn get(&self) -> &Hub<A>
        ensures { result.now ≡ self.now }
    {
        &self.hub
    }
}
