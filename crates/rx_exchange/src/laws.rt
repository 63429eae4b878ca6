//! Where an exchange begins, and how it goes on among others. The functions do nothing: their clauses are the laws.
ghost use Rattle.rx_exchange.specs.Among.{JoinsTurns};
ghost use Rattle.rx_exchange.specs.Exchanges.{Begins};
ghost use Rattle.rx_exchange.specs.Meetings.{parties};

use crate::Front;
use std::io::Write;

/// An exchange that had no turn yet is under way from any server and writer, and nothing was read.
pub fn exchange_begins<W: Write + Drop, D: Front<W>>()
    ensures { Begins (parties D.since D.looks D.joins D.emits D.emits_lines D.requests D.shows D.stops W.contents) }
{}

/// Where others call the server between the turns of an exchange, these are turns of an exchange whose server others call too.
pub fn turns_among_others_join<W: Write + Drop, D: Front<W>>()
    ensures { JoinsTurns (parties D.since D.looks D.joins D.emits D.emits_lines D.requests D.shows D.stops W.contents) }
{}
