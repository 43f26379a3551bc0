//! How a command ends.

/// How a command ends; the program ends with its number.
#[derive(Clone, Copy, PartialEq, Eq)]
pub enum Status {
    Done,
    NoMemory,
    Words,
    ReadFault,
    WriteFault,
    BadTrace,
    WireFault,
    TooLong,
    /// A capture file, or a record of it, has a fault.
    BadCapture,
    /// A session description has a fault.
    BadSdp,
}
