//! What comes to a server, and what it answers.
ghost use Rattle.std.specs.Prelude.{◌≡◌};
ghost use Rattle.server_hub.specs.declared.event.AddFault.TheVariants as faults;
ghost use Rattle.server_hub.specs.{answers_said, event_of, told};

use ram_io::NoMemory as OutOfMemory;
use rams_model::{Answer, Octets};
use std::alloc::{AllocError, AllocFailed};
use std::slice;

/// One event of a server.
#[derive(Drop)]
pub enum HubEvent {
    /// A packet of the multicast of the channel `id`, as it came.
    Live { id: u16, bytes: Octets },
    /// A datagram to the feedback target (RFC 4585) of the channel `id` from this client.
    Feedback { id: u16, client: u64, bytes: Octets },
    /// A tick of the clock of all channels.
    Tick,
}

/// One event of a server, with its bytes where they stand.
#[derive(Clone, Copy)]
pub enum Heard<'a> {
    /// A packet of the multicast of the channel `id`, as it came.
    Live {
        id: u16,
        bytes: &'a [u8],
    },
    /// A datagram to the feedback target (RFC 4585) of the channel `id` from this client.
    Feedback {
        id: u16,
        client: u64,
        bytes: &'a [u8],
    },
    /// A tick of the clock of all channels.
    Tick,
}

impl HubEvent {
    /// The event with its bytes borrowed.
    pub fn heard(&self) -> Heard<'_>
        ensures { event_of result ≡ self.now }
    {
        match self {
            HubEvent::Live { id, bytes } => Heard::Live {
                id: *id,
                bytes: bytes.bytes(),
            },
            HubEvent::Feedback { id, client, bytes } => Heard::Feedback {
                id: *id,
                client: *client,
                bytes: bytes.bytes(),
            },
            HubEvent::Tick => Heard::Tick,
        }
    }
}

/// What the channel `id` answers.
#[derive(Drop)]
pub struct At {
    pub id: u16,
    pub answer: Answer,
}

/// What a server answers to an event.
#[derive(Drop)]
pub enum HubAnswer {
    /// There is no channel of this number.
    NoChannel(u16),
    /// The answer of the channel that the event named.
    Answer(At),
    /// The answers of all channels to a tick, in the order in which they were added.
    Answers(Vec<At>),
}

/// The answers of the channels that answer.
pub fn answers_of(answer: &HubAnswer) -> &[At]
    ensures { result.now ≡ answers_said (told answer.now) }
{
    match answer {
        HubAnswer::NoChannel(_) => &[],
        HubAnswer::Answer(at) => slice::from_ref(at),
        HubAnswer::Answers(all) => all,
    }
}

/// Why a channel isn't added.
#[derive(Clone, Copy, PartialEq, Eq)]
pub enum AddFault {
    /// A channel has this number.
    Twice,
    /// The shares of the channels, together, would exceed the link.
    Link,
    /// There are as many channels as there may be.
    Full,
    /// Memory ran out.
    NoMemory,
}

impl From<OutOfMemory> for AddFault {
    ghost from_gives = { λ _ fault. fault ≡ faults.NoMemory };

    fn from(_e: OutOfMemory) -> AddFault {
        AddFault::NoMemory
    }
}

impl From<AllocError> for AddFault {
    ghost from_gives = { λ _ fault. fault ≡ faults.NoMemory };

    fn from(_e: AllocError) -> AddFault {
        AddFault::NoMemory
    }
}

impl<T: Drop> From<AllocFailed<T>> for AddFault {
    ghost from_gives = { λ _ fault. fault ≡ faults.NoMemory };

    fn from(_e: AllocFailed<T>) -> AddFault {
        AddFault::NoMemory
    }
}
