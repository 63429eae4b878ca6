//! Tests of what browsers ask for and are written, by its public calls: requests and answers; the lines of bodies; heads, whole exchanges and emissions, cut
//! at each byte; a reader of streams that is read off the standard, texts that come back, and a stream that is cut at each byte and written with
//! each growth refused; what event sinks write and how they stand.
//!
//! There is no code here but tests, and nothing stands on it. It stands above `rx_http`, `rx_exchange` and `rx_events`, so that these are
//! proved once.
#![tactic(auto)]

#[cfg(test)]
mod answers;
#[cfg(test)]
mod body_lines;
#[cfg(test)]
mod clerk;
#[cfg(test)]
mod drips;
#[cfg(test)]
mod emissions;
#[cfg(test)]
mod examples;
#[cfg(test)]
mod exchanges;
#[cfg(test)]
mod expectations;
#[cfg(test)]
mod heads;
#[cfg(test)]
mod plain;
#[cfg(test)]
mod posts;
#[cfg(test)]
mod requests;
#[cfg(test)]
mod sinks;
#[cfg(test)]
mod streams;
#[cfg(test)]
mod texts;
