//! What a client is told, byte by byte.
ghost use Rattle.service_laws.specs.byte_laws.{EachNoteTellsItsClientSo, EachOrderIsThatOfANote};

/// Each note that tells its client something does so by a RAMS-I (RFC 6285, 7.3) with these bytes: an
/// Accept and an Update the response, the message sequence number, and TLV 32 to 35 with the first
/// sequence number, the join time in ms, the time that is left in ms, and the bits per second; an Again
/// the bytes of the last of these; a Refuse its code alone; an End 201, or 502 where the next packet was
/// lost. No other note tells anything, and whatever goes out is the order of a note.
pub fn each_note_tells_its_client_so()
    ensures told { EachNoteTellsItsClientSo }
    ensures each { EachOrderIsThatOfANote }
{}
