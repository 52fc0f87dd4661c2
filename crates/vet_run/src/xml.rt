//! Texts as XML has them.
ghost use Rattle.std.specs.Prelude.{◌≡◌, ◌++◌, OnOk};
ghost use Rattle.vet_run.specs.Xml.{is_forbidden, ends_noncharacter, plain_byte, xml_byte};
ghost use Rattle.vet_run.specs.Xml.{xml_text};

use crate::bytes::push_bytes;
use std::alloc::AllocError;

// Whether XML forbids the control character.
fn is_forbidden(byte: u8) -> bool
    ensures { result ≡ is_forbidden byte }
{
    byte < 32 && !matches!(byte, b'\t' | b'\n' | b'\r')
}

// Whether the byte ends U+FFFE or U+FFFF, behind its first two bytes.
fn ends_noncharacter(first: u8, second: u8, byte: u8) -> bool
    ensures { result ≡ ends_noncharacter first second byte }
{
    first == 0xef && second == 0xbf && byte > 0xbd
}

// Writes a byte that stands behind two others, where XML allows it.
fn push_plain(bytes: &mut Vec<u8>, first: u8, second: u8, byte: u8) -> Result<(), AllocError>
    ensures { OnOk result (bytes.new.items ≡ bytes.old.items ++ plain_byte first second byte) }
{
    if is_forbidden(byte) {
        return push_bytes(bytes, b"\xef\xbf\xbd");
    }
    let byte = if ends_noncharacter(first, second, byte) {
        0xbd
    } else {
        byte
    };
    Ok(bytes.push(byte)?)
}

// Writes a byte that stands behind two others.
fn push_byte(bytes: &mut Vec<u8>, first: u8, second: u8, byte: u8) -> Result<(), AllocError>
    ensures { OnOk result (bytes.new.items ≡ bytes.old.items ++ xml_byte first second byte) }
{
    match byte {
        b'&' => push_bytes(bytes, b"&amp;"),
        b'<' => push_bytes(bytes, b"&lt;"),
        b'>' => push_bytes(bytes, b"&gt;"),
        b'"' => push_bytes(bytes, b"&quot;"),
        b'\r' => push_bytes(bytes, b"&#13;"),
        _ => push_plain(bytes, first, second, byte),
    }
}

/// Writes the text as XML has it behind the other: escaped, and U+FFFD in place of a character that
/// XML forbids.
pub(crate) fn push_xml(bytes: &mut Vec<u8>, text: &str) -> Result<(), AllocError>
    ensures { OnOk result (bytes.new.items ≡ bytes.old.items ++ xml_text text.now) }
{
    let (mut first, mut second) = (0, 0);
    for byte in text.as_bytes() {
        push_byte(bytes, first, second, *byte)?;
        first = second;
        second = *byte;
    }
    Ok(())
}
