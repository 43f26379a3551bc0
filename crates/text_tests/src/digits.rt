//! Digits of bytes, and texts that are refused.
use crate::fixtures::same;
use hex_text::{append_encoded, decode_digits, decode_into, encode_into};
use std::alloc::Global;
use std::test::Fail;

/// Texts, and the bytes whose digits they are (RFC 4648, 10), with small letters.
const TEXTS: &[(&str, Option<&[u8]>)] = &[
    ("", Some(b"")),
    ("66", Some(b"f")),
    ("666f", Some(b"fo")),
    ("666f6f", Some(b"foo")),
    ("666f6f62", Some(b"foob")),
    ("666f6f6261", Some(b"fooba")),
    ("666f6f626172", Some(b"foobar")),
    ("0af9", Some(b"\x0a\xf9")),
    ("0aF9", None),
    ("0ag9", None),
    ("0af", None),
    ("0af:", None),
    ("0a f", None),
];

/// The bytes of digits, where the text is of digits: into room, and in place of others.
fn decoded(alloc: Global, digits: &[u8]) -> Result<Option<Vec<u8>>, Fail> {
    let mut room = vec![in alloc; 0u8; digits.len() / 2]?;
    if !decode_into(digits, &mut room) {
        return Ok(None);
    }
    let mut bytes = b"old".to_vec(alloc)?;
    decode_digits(&mut bytes, digits)?;
    if bytes != room {
        return Err(Fail::from("two ways of decoding"));
    }
    Ok(Some(bytes))
}

/// The digits of bytes, written behind a text.
fn encoded(alloc: Global, bytes: &[u8]) -> Result<Vec<u8>, Fail> {
    let mut text = b"live 7 ".to_vec(alloc)?;
    append_encoded(&mut text, bytes)?;
    let digits = text.strip_prefix(b"live 7 ").ok_or("the front")?;
    Ok(digits.to_vec(alloc)?)
}

#[test]
fn texts_are_decoded(rt: HostRuntime) -> Result<(), Fail> {
    for (text, want) in TEXTS {
        let got = decoded(rt.alloc(), text.as_bytes())?;
        same(&rt, &got.as_deref(), want, text);
    }
    Ok(())
}

#[test]
fn bytes_are_encoded(rt: HostRuntime) -> Result<(), Fail> {
    for (text, bytes) in TEXTS {
        if let Some(bytes) = bytes {
            let got = encoded(rt.alloc(), bytes)?;
            same(&rt, &got.as_slice(), &text.as_bytes(), text);
        }
    }
    let mut room = [b' '; 5];
    encode_into(&[0x0a, 0xf9], &mut room);
    same(&rt, &room.as_slice(), &b"0af9 ".as_slice(), &"two bytes");
    Ok(())
}

/// Numbers of bytes about the ends of blocks of 16.
const LENGTHS: &[usize] = &[15, 16, 17, 31, 32, 33, 48, 1470];

/// So many different bytes.
fn bytes_to(alloc: Global, len: usize) -> Result<Vec<u8>, Fail> {
    let mut bytes = Vec::new(alloc);
    for i in 0..len {
        bytes.push((i % 256 * 167 % 256) as u8)?;
    }
    Ok(bytes)
}

#[test]
fn long_texts_are_as_the_crate_hex_has_them(rt: HostRuntime) -> Result<(), Fail> {
    for len in LENGTHS {
        let bytes = bytes_to(rt.alloc(), *len)?;
        let wanted = hex::encode(rt.alloc(), bytes.as_slice())?;
        let got = encoded(rt.alloc(), &bytes)?;
        same(&rt, &got.as_slice(), &wanted.as_bytes(), len);
    }
    Ok(())
}
