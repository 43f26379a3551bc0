//! Laws of worlds. A law is the contract of a function that does nothing.
ghost use Rattle.meet_loop.specs.world_laws.{EachDeliveryIsFair, EachReceiverPresentsAPrefix, EachReceiverPresentsWhatIsDelivered, NoInfosAreForeignOrBad, NoMediaAreForeignOrBad};

/// Whatever is lost, repeated or reordered on the way: what each receiver presents is a prefix of its
/// channel's source from the receiver's first number on, in order, each packet once.
pub fn each_receiver_presents_a_prefix()
    ensures { EachReceiverPresentsAPrefix }
{}

/// What was delivered to a receiver without a gap from its first number on, each packet while there
/// was room for it, is presented.
pub fn each_receiver_presents_what_is_delivered()
    ensures { EachReceiverPresentsWhatIsDelivered }
{}

/// Each packet of the media that is delivered is one of the source, under its number: none is foreign
/// to the receiver, and none is bad.
pub fn each_delivery_is_of_the_source()
    ensures fair { EachDeliveryIsFair }
    ensures media { NoMediaAreForeignOrBad }
{}

/// Each RAMS-I that is delivered (RFC 6285, 7.3) is one about the receiver's media source, and names a
/// first sequence number where it tells of a burst: none is foreign, and none is bad.
pub fn each_info_is_of_the_channel()
    ensures { NoInfosAreForeignOrBad }
{}
