//! What the messages of a datagram are answered on.

use crate::page::Page;
use crate::visitor::Visitor;
use channel_cache::Cache;
use channel_config::Config;
use repair_queue::Queue;

/// What is read and what changes while the messages of a datagram are answered.
#[derive(Drop)]
pub(crate) struct Desk<'a> {
    /// The settings of the channel.
    pub config: &'a Config,
    /// Its live packets.
    pub cache: &'a Cache,
    /// The repairs that its clients wait for.
    pub queue: &'a mut Queue,
    /// The client of the datagram.
    pub visitor: Visitor,
    /// What was noted so far.
    pub page: Page,
}
