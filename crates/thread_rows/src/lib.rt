//! Runs of the command `threads`, on threads: whole traces, traces that are refused, and two runs in which
//! threads meet at a gate; and the words of the command line. `run` runs the top call, `gates` has the gate.
#![tactic(auto)]

#[cfg(test)]
mod fixtures;
#[cfg(test)]
mod gates;
#[cfg(test)]
mod meetings;
#[cfg(test)]
mod refusals;
#[cfg(test)]
mod run;
#[cfg(test)]
mod texts;
#[cfg(test)]
mod words;
