//! What a description asks for.
ghost use Rattle.std.specs.Prelude.{◌≡◌, ◌≤◌, ◌<◌, [], None, Some, IfSome, length, slice_get};
ghost use Rattle.pipeline_desc.specs.Limits.{most_groups, most_streams, most_tables};
ghost use Rattle.pipeline_desc.specs.Meant.{listed_limit, setting_at, stream_limit};
ghost use Rattle.pipeline_desc.specs.Sound.{IsSoundPlan, IsSoundStream};

use crate::group::GroupSpec;
use crate::listing::ListSpec;
use crate::stream::StreamSpec;
use crate::table::TableSpec;
use chunk_core::List;
use std::alloc::Global;
use std::marker::Model;

/// The numbers of a plan.
#[derive(Clone, Copy)]
pub struct Numbers {
    /// How many streams may be open at a time.
    pub max_open: u32,
    /// How many loads may wait to be printed.
    pub queue: u32,
    /// The most bytes of one read.
    pub chunk: u32,
    /// The most frames that are printed, where there is such a number.
    pub take: Option<u64>,
}

/// A plan, which is within all limits.
#[derive(Drop)]
pub struct Plan {
    max_open: u32,
    queue: u32,
    chunk: u32,
    take: Option<u64>,
    tables: List<TableSpec>,
    streams: List<StreamSpec>,
    groups: List<GroupSpec>,
    list: Option<ListSpec>,
}

impl Model for Plan {
    ghost use Rattle.pipeline_desc.specs.Meant.{PlanMeant};
    ghost use Rattle.pipeline_desc.specs.Sound.{IsSoundPlan};

    ghost Value = { PlanMeant };

    ghost view = { λ p. record { max_open = p.max_open; queue = p.queue; chunk = p.chunk; take = p.take; tables = p.tables; streams = p.streams; groups = p.groups; list = p.list } };

    ghost invariant = { λ p. IsSoundPlan (record { max_open = p.max_open; queue = p.queue; chunk = p.chunk; take = p.take; tables = p.tables; streams = p.streams; groups = p.groups; list = p.list }) };
}

/// How many streams the list may have, and none without a list.
fn listed_limit(list: &Option<ListSpec>) -> u32
    ensures { result ≡ listed_limit list.now }
{
    match list {
        Some(list) => list.max,
        None => 0,
    }
}

impl Plan {
    /// A plan without groups and without a list, of parts that are within all limits. What a
    /// description has where it doesn't give them is 4 for `max_open`, 16 for `queue`, 4,096 for
    /// `chunk`, no `take`, no table and no stream.
    pub fn of(
        alloc: Global,
        max_open: u32,
        queue: u32,
        chunk: u32,
        take: Option<u64>,
        tables: List<TableSpec>,
        streams: List<StreamSpec>,
    ) -> Plan
        requires { IsSoundPlan (record { max_open = max_open; queue = queue; chunk = chunk; take = take; tables = tables; streams = streams; groups = []; list = None }) }
        ensures { result ≡ record { max_open = max_open; queue = queue; chunk = chunk; take = take; tables = tables; streams = streams; groups = []; list = None } }
    {
        let groups = List::new(alloc);
        Plan {
            max_open,
            queue,
            chunk,
            take,
            tables,
            streams,
            groups,
            list: None,
        }
    }

    /// A plan of all parts, which are within all limits.
    pub fn whole(
        numbers: Numbers,
        tables: List<TableSpec>,
        streams: List<StreamSpec>,
        groups: List<GroupSpec>,
        list: Option<ListSpec>,
    ) -> Plan
        requires { IsSoundPlan (record { max_open = numbers.max_open; queue = numbers.queue; chunk = numbers.chunk; take = numbers.take; tables = tables; streams = streams; groups = groups; list = list }) }
        ensures { result ≡ record { max_open = numbers.max_open; queue = numbers.queue; chunk = numbers.chunk; take = numbers.take; tables = tables; streams = streams; groups = groups; list = list } }
    {
        Plan {
            max_open: numbers.max_open,
            queue: numbers.queue,
            chunk: numbers.chunk,
            take: numbers.take,
            tables,
            streams,
            groups,
            list,
        }
    }

    /// A plan is within all limits.
    pub fn limits(&self)
        ensures { IsSoundPlan self.now }
    {
        let _ = &self.streams;
    }

    /// How many streams may be open at a time.
    pub fn max_open(&self) -> u32
        ensures value { result ≡ self.now.max_open }
        ensures low { 1 ≤ result }
        ensures high { result ≤ 64 }
    {
        self.max_open
    }

    /// The same plan with another number of streams that may be open at a time.
    pub fn with_max_open(self, max_open: u32) -> Plan
        requires low { 1 ≤ max_open }
        requires high { max_open ≤ 64 }
        ensures { result ≡ record self { max_open = max_open } }
    {
        let numbers = Numbers {
            max_open,
            queue: self.queue,
            chunk: self.chunk,
            take: self.take,
        };
        Plan::whole(numbers, self.tables, self.streams, self.groups, self.list)
    }

    /// How many loads may wait to be printed.
    pub fn queue(&self) -> u32
        ensures value { result ≡ self.now.queue }
        ensures low { 1 ≤ result }
        ensures high { result ≤ 64 }
    {
        self.queue
    }

    /// The most bytes of one read.
    pub fn chunk(&self) -> u32
        ensures value { result ≡ self.now.chunk }
        ensures low { 1 ≤ result }
        ensures high { result ≤ 65536 }
    {
        self.chunk
    }

    /// The most frames that are printed, where there is such a number.
    pub fn take(&self) -> Option<u64>
        ensures value { result ≡ self.now.take }
        ensures high { IfSome result (λ n. n ≤ 1000000000) }
    {
        self.take
    }

    /// The tables in order: those of the top, and then those of each group.
    pub fn tables(&self) -> &List<TableSpec>
        ensures value { result.now ≡ self.now.tables }
        ensures few { length result.now ≤ most_tables }
    {
        &self.tables
    }

    /// The streams that are described, in order: those of the top, and then those of each group.
    pub fn streams(&self) -> &List<StreamSpec>
        ensures value { result.now ≡ self.now.streams }
        ensures few { length result.now ≤ most_streams }
    {
        &self.streams
    }

    /// The groups in order.
    pub fn groups(&self) -> &List<GroupSpec>
        ensures value { result.now ≡ self.now.groups }
        ensures few { length result.now ≤ most_groups }
    {
        &self.groups
    }

    /// The list of further streams, where there is one.
    pub fn list(&self) -> &Option<ListSpec>
        ensures { result.now ≡ self.now.list }
    {
        &self.list
    }

    /// The list of further streams, where some stream may be one of its.
    pub fn listed(&self) -> &ListSpec
        requires { length self.now.streams < stream_limit self.now }
        ensures { self.now.list ≡ Some result.now }
    {
        match &self.list {
            Some(list) => list,
            None => unreachable!(),
        }
    }

    /// How many streams there may be: those that are described, and behind them as many as the list
    /// may have.
    pub fn stream_limit(&self) -> u32
        ensures value { result ≡ stream_limit self.now }
        ensures few { result ≤ most_streams }
    {
        self.streams.len() as u32 + listed_limit(&self.list)
    }

    /// The described stream of a number.
    pub fn stream(&self, k: u32) -> &StreamSpec
        requires { k < length self.now.streams }
        ensures value { slice_get self.now.streams k ≡ Some result.now }
        ensures sound { IsSoundStream (setting_at self.now.tables self.now.groups (length self.now.streams) k) k result.now }
    {
        &self.streams.as_slice()[k as usize]
    }
}
