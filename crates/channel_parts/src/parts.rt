//! The parts of one channel.
ghost use Rattle.std.specs.Prelude.{◌≡◌, [], IfOk};
ghost use Rattle.channel_parts.specs.{StandsFor, new_parts};

use channel_cache::Cache;
use channel_config::Config;
use client_table::Table;
use ram_io::NoMemory;
use reckoning::link_budget::Budget;
use repair_queue::Queue;
use std::alloc::Global;

/// What a channel keeps between events.
#[derive(Drop)]
pub struct Parts {
    /// Its settings, which are lawful.
    pub config: Config,
    /// Its live packets.
    pub cache: Cache,
    /// What its bursts have reserved, and what it may still send in a tick.
    pub budget: Budget,
    /// The repairs that its clients wait for.
    pub queue: Queue,
    /// Its known clients.
    pub table: Table,
}

impl Parts {
    /// The parts of a channel to which nothing came yet. They take the room for its live packets, for
    /// 4,096 repairs and for as many clients as it may have.
    pub fn new(alloc: Global, config: &Config) -> Result<Parts, NoMemory>
        ensures value { IfOk result (λ parts. parts ≡ new_parts config.now) }
        ensures stands { IfOk result (λ parts. StandsFor parts []) }
    {
        let channel = config.channel();
        Ok(Parts {
            config: *config,
            cache: Cache::new(alloc, config)?,
            budget: Budget::new(channel.share, channel.reserve, channel.swell),
            queue: Queue::new(alloc)?,
            table: Table::new(alloc, channel.clients, channel.idle)?,
        })
    }
}
