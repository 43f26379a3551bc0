//! The response codes of a RAMS-I (RFC 6285, 7.3 and 11.6).

/// The parameters of the burst change.
pub const UPDATED: u16 = 100;

/// The request is accepted.
pub const ACCEPTED: u16 = 200;

/// The burst is completed: it came to its stop, or lasted as long as it may.
pub const COMPLETED: u16 = 201;

/// The RAMS-R can't be read.
pub const UNREADABLE_REQUEST: u16 = 400;

/// No access point is old enough for the Min RAMS Buffer Fill Requirement.
pub const MIN_FILL_UNMET: u16 = 401;

/// Each access point that is old enough is too old for the Max RAMS Buffer Fill Requirement.
pub const MAX_FILL_UNMET: u16 = 402;

/// The Max Receive Bitrate is too low for a burst to catch up.
pub const BITRATE_TOO_LOW: u16 = 403;

/// The RAMS-T can't be read.
pub const UNREADABLE_STOP: u16 = 404;

/// The bandwidth that is left is less than the burst's.
pub const NO_BANDWIDTH: u16 = 501;

/// The burst ends early. The RFC says "network congestion"; here its next packet is no longer held.
pub const BURST_LOST: u16 = 502;

/// No client more can be served. The RFC says "CPU cycles"; here as many are known as may be.
pub const TOO_MANY_CLIENTS: u16 = 503;

/// There is no access point.
pub const NO_ACCESS_POINT: u16 = 507;

/// The channel has no source of the SSRCs that are asked for.
pub const OTHER_SOURCE: u16 = 509;

/// Policy: a preamble alone isn't sent.
pub const ONLY_PREAMBLE: u16 = 512;
