//! A law is the contract of a function that does nothing.
ghost use Rattle.trace_loop.specs.trace_book.printed_books.{BooksArePrinted, ABookAloneIsPrinted};

use crate::trace_book::laws::{traces_are_served_by_their_lines, traces_stay_within_the_link};
use server_hub::laws::channels_get_their_events;

/// Whatever the trace, what is printed for an event are the lines of the channels that it comes to, each
/// after what came to it before; and the lines of a channel, all in their order, are those of its one lawful
/// book, under the numbers of its events in the trace.
pub fn books_are_printed()
    ensures { BooksArePrinted }
{
    traces_are_served_by_their_lines();
    traces_stay_within_the_link();
    channels_get_their_events();
}

/// Where each event comes to one channel, its lines are those of its book, counted from 1.
pub fn a_book_alone_is_printed()
    ensures { ABookAloneIsPrinted }
{}
