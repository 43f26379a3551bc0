//! Laws of the definitions: each is the contract of a function that does nothing.
ghost use Rattle.rams_model.specs.Laws.{CatchingUpEnds, EachPacketStandsOnce, TheSourceOnlyGrows, TheAwaitedIsTheLeast, TheEndIsTheLongest, HeldPacketsFollow, TheRunIsTheLongest, TheChosenIsTheNewest, TheStopIsTheLeast, KnownIsSinceTheLastBye, OpenIsSinceTheLastEnd, PendingIsSinceTheLastRepair, StopIsOfTheLastStopAt, BurstIsSinceTheLastAccept, BurstIsOpenSinceTheLastEnd, ChannelHasLeft, BurstHasLeft, ExactlyOneBook};
ghost use Rattle.rams_model.specs.Formats.{PlainPacketsAreSpelledAgain, WhatIsReadIsSpelledSo, WhatIsSpelledSoIsRead, info_fci, Framed, framed, IsCompound, packet_text, least_body, FramesAs, nack_numbers, nack_words, Tlv, IsMessage, tlvs_at, Request, FitsRequest, request_at, request_fci, request_back, FitsInfo, info_at, FitsIn, stop_at, stop_fci};
ghost use Rattle.std.specs.Prelude.{◌≡◌, ◌%◌, ◌^◌, ◌<◌, ◌≤◌, ℕ, Bool, List, [], ◌∷◌, length, Ok, All};
ghost use Rattle.std.specs.List.{AllByRecursion};
ghost use Rattle.rams_model.specs.declared.{message.Info.Info, message.Stop.Stop};

/// A packet with a fixed header alone is spelled again, byte for byte, from what is read of it
/// (RFC 3550, 5.1).
pub fn plain_packets_are_spelled_again()
    ensures { PlainPacketsAreSpelledAgain }
{}

/// Each packet stands once in the source list, by its number; the list only grows, at its end.
pub fn source_grows_in_order()
    ensures once { EachPacketStandsOnce }
    ensures grows { TheSourceOnlyGrows }
{}

/// The awaited number is the least that is missing.
pub fn awaited_is_least()
    ensures { TheAwaitedIsTheLeast }
{}

/// What is held is the end of the longest end of the source without a gap: the packets from one
/// number up to another.
pub fn held_packets_follow()
    ensures longest { TheEndIsTheLongest }
    ensures follow { HeldPacketsFollow }
{}

/// A burst begins at the newest eligible access point that is old enough.
pub fn chosen_is_newest()
    ensures { TheChosenIsTheNewest }
{}

/// A burst is sent the longest run that its budget has room for.
pub fn run_is_longest()
    ensures { TheRunIsTheLongest }
{}

/// A stop is the least number with the bits that are named, or the next (RFC 6285, 7.4).
pub fn stop_is_least()
    ensures { TheStopIsTheLeast }
{}

/// Who is known and who has an open burst, and which repairs are pending.
pub fn clients_are_since()
    ensures known { KnownIsSinceTheLastBye }
    ensures opened { OpenIsSinceTheLastEnd }
    ensures pending { PendingIsSinceTheLastRepair }
{}

/// What a client's newest burst is, whether it is open, and where it stops.
pub fn bursts_are_since()
    ensures accepted { BurstIsSinceTheLastAccept }
    ensures opened { BurstIsOpenSinceTheLastEnd }
    ensures stop { StopIsOfTheLastStopAt }
{}

/// What the budgets of a channel and of a burst have left in a tick.
pub fn budgets_have_left()
    ensures channel { ChannelHasLeft }
    ensures burst { BurstHasLeft }
{}

/// For each list of events there is exactly one lawful book.
pub fn exactly_one_book()
    ensures { ExactlyOneBook }
{}

/// What catches up has caught up after as many steps as gain what stood before the first.
pub fn catching_up_ends()
    ensures { CatchingUpEnds }
{}

/// What is read as an RTP packet is a packet, and the bytes are its spelling (RFC 3550, 5.1).
pub fn what_is_read_is_spelled_so()
    ensures { WhatIsReadIsSpelledSo }
{}

/// The spelling of an RTP packet is read as this packet, so no two packets have one spelling (RFC
/// 3550, 5.1).
pub fn what_is_spelled_so_is_read()
    ensures { WhatIsSpelledSoIsRead }
{}

/// What is read of a RAMS message is spelled so, byte for byte; what is spelled so is read (RFC
/// 6285, 7).
pub fn rams_messages_are_read_as_spelled()
    ensures spelled { (sfmt : ℕ) (lengths : ℕ → ℕ → Bool) (fci : List ℕ) (ts : List Tlv) → All (λ b. b < 256) fci
        → tlvs_at sfmt lengths fci ≡ Ok ts → IsMessage sfmt lengths fci ts }
    ensures read { (sfmt : ℕ) (lengths : ℕ → ℕ → Bool) (fci : List ℕ) (ts : List Tlv)
        → IsMessage sfmt lengths fci ts → tlvs_at sfmt lengths fci ≡ Ok ts }
{}

/// What is written of a RAMS message is read back; an empty list of SSRCs comes back as none.
pub fn rams_messages_are_read_back()
    ensures request { (r : Request) → FitsRequest r → request_at (request_fci r) ≡ Ok (request_back r) }
    ensures info { (i : Info) → FitsInfo i → info_at (info_fci i) ≡ Ok i }
    ensures stop { (s : Stop) → FitsIn 32 s.first_multicast → stop_at (stop_fci s) ≡ Ok s }
{}

/// What is read of a datagram is spelled so, byte for byte, each packet with some padding; what is
/// spelled so is read (RFC 3550, 6).
pub fn datagrams_are_read_as_spelled()
    ensures spelled { (datagram : List ℕ) (packets : List Framed) → All (λ b. b < 256) datagram
        → framed datagram ≡ Ok packets → IsCompound datagram packets }
    ensures read { (datagram : List ℕ) (packets : List Framed) → IsCompound datagram packets → framed datagram ≡ Ok packets }
{}

/// What is written of a packet without padding is read back, and so is a feedback message (RFC
/// 4585, 6.1).
pub fn packets_are_read_back()
    ensures packet { (p : Framed) → p.count < 32 → length p.body % 4 ≡ 0 → length p.body < 262144
        → least_body p.kind p.count ≤ length p.body → framed (packet_text p []) ≡ Ok (p ∷ []) }
    ensures feedback { (format sender media : ℕ) (fci : List ℕ) → format < 32 → sender < 2 ^ 32 → media < 2 ^ 32
        → length fci % 4 ≡ 0 → length fci < 262136 → FramesAs format sender media fci }
{}

/// Numbers that are packed into the words of a NACK are named by them, in their order (RFC 4585,
/// 6.2.1).
pub fn nacks_are_read_back()
    ensures { (numbers : List ℕ) → 0 < length numbers → AllByRecursion (λ n. n < 65536) numbers
        → nack_numbers (nack_words numbers) ≡ Ok numbers }
{}
