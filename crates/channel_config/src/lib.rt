//! Lawful settings of a channel.
#![tactic(auto)]

mod config;

pub use config::{
    Config, MOST_CHANNELS, is_amount, is_channel_in_range, is_id_in_range, is_tick_in_range,
    lawful_settings,
};
pub use rams_model::{Access, Channel, ConfigFault};
