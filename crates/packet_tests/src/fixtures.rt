//! What the tests of several crates begin with, and what is compared.
use std::alloc::Global;
use std::process::Abort;
use std::test::Fail;
use test_fixtures::test_calls::let_go;
use test_fixtures::test_words::{Words, bytes_of};

/// The SSRC of the client that sends feedback.
pub const CLIENT: u32 = 0x0000_c001;

/// The SSRC of the media source.
pub const MEDIA: u32 = 0x1122_3344;

/// It holds of this.
pub fn holds(rt: &impl Abort, is_so: bool, of: &str) {
    assert!(rt; is_so, "{of}");
}

/// The feedback control information of a feedback packet (RFC 4585, 6.1).
pub fn fci_of(packet: &[u8]) -> &[u8] {
    packet.get(12..).unwrap_or(&[])
}

/// Text of what was written alone and then behind itself is the packet, twice.
pub fn is_twice(text: &[u8], packet: &[u8]) -> bool {
    text.strip_prefix(packet) == Some(packet)
}

/// A row's name, its bytes, and what is wanted of them.
pub type Row<W> = (&'static str, Words, W);

/// What is wanted of a row's bytes.
pub trait Wanted {
    /// They are so.
    fn is_met(&self, alloc: Global, bytes: &[u8]) -> Result<bool, Fail>;
}

/// Each row's bytes are as it says.
pub fn expect_rows<W: Wanted>(rt: &impl Abort, alloc: Global, rows: &[Row<W>]) -> Result<(), Fail> {
    for (name, words, want) in rows {
        let bytes = bytes_of(alloc, words)?;
        let is_met = want.is_met(alloc, &bytes);
        let_go(bytes);
        holds(rt, is_met?, name);
    }
    Ok(())
}
