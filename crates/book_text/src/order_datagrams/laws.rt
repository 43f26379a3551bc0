//! Why each order of an answer has a datagram.
ghost use Rattle.book_text.specs.order_datagrams.{EachOrderOfAnAnswerRenders, EachOrderOfABookRenders};

/// Each order that a channel answers has a datagram: the packet of a retransmission is one that came
/// and was read, without its padding.
pub fn orders_of_answers_render()
    ensures answers { EachOrderOfAnAnswerRenders }
    ensures books { EachOrderOfABookRenders }
{}
