//! Traces of the commands `run` and `meet` and their books, worked out by hand, as tables.
//!
//! `row` runs a row; `tables` names all rows, and runs them. Each of the other modules has the rows of one
//! subject: tables of data, and where a trace is long the few functions that write it out.
//!
//! Comments say what the bytes are. `RTP 10` is the packet of sequence number 10 (RFC 3550, 5.1) of the channel's
//! source and payload type, where no other is named; `RTX 500 of 10` is its retransmission with sequence number
//! 500 (RFC 4588, 4). RR, SDES and BYE are packets of RTCP (RFC 3550, 6), NACK is the generic one (RFC 4585,
//! 6.2.1), and RAMS-R, RAMS-I and RAMS-T ask, answer and stop (RFC 6285, 7).
#![tactic(auto)]

#[cfg(test)]
mod bounds;
#[cfg(test)]
mod budgets;
#[cfg(test)]
mod bursts;
#[cfg(test)]
mod channels;
#[cfg(test)]
mod datagrams;
#[cfg(test)]
mod live;
#[cfg(test)]
mod load;
#[cfg(test)]
mod queues;
#[cfg(test)]
mod refusals;
#[cfg(test)]
mod repairs;
#[cfg(test)]
mod requests;
#[cfg(test)]
mod row;
#[cfg(test)]
mod stops;
#[cfg(test)]
mod tables;
#[cfg(test)]
mod worlds;
