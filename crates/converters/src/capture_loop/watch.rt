//! What looks on while a capture is read.
use crate::capture_loop::pcap_trace::{CaptureFault, Endian, FileKind, file_kind};
use ram_io::Open;

/// What looks on while a capture is read, so that its operator can be told. Its methods answer nothing
/// and return: nothing that is written depends on them.
pub trait CaptureWatch {
    /// The file's head is refused for this fault. By its first 24 bytes the file is of this kind, which is
    /// `Unknown` where it has fewer.
    fn refuses_file(&self, fault: CaptureFault, kind: FileKind);

    /// The file's record of this number, from 1, is refused.
    fn refuses_record(&self, number: u64, fault: CaptureFault);
}

impl CaptureWatch for Open {
    fn refuses_file(&self, _fault: CaptureFault, _kind: FileKind) {}

    fn refuses_record(&self, _number: u64, _fault: CaptureFault) {}
}

/// Tells of a file whose head is this, where it was refused.
pub(crate) fn tell_file<T: CaptureWatch>(
    watch: &T,
    head: &[u8],
    order: Result<Endian, CaptureFault>,
) {
    if let Err(fault) = order {
        watch.refuses_file(fault, file_kind(head));
    }
}
