//! One link that several channels share: its claims, the channels on threads of their own, and the ledger.
#![tactic(auto)]

pub mod ledger_text;
pub mod link_pool;
pub mod pool_loop;
pub mod pool_run;
