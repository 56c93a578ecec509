//! DVI files for the tests.

use std::alloc::Global;
use std::test::Fail;

/// The units num, den and mag of a scaled point, as TeX writes them.
const UNITS: [u8; 12] = [
    0x01, 0x83, 0x92, 0xc0, 0x1c, 0x3b, 0x00, 0x00, 0x00, 0x00, 0x03, 0xe8,
];

/// The four bytes of a place.
fn place(at: usize) -> [u8; 4] {
    u32::try_from(at).unwrap_or(0).to_be_bytes()
}

/// The file of one page with this body. It allows two open pushes.
pub fn file_of(alloc: Global, body: &[u8]) -> Result<Vec<u8>, Fail> {
    let mut file = Vec::new(alloc);
    file.extend_from_slice(&[0xf7, 2])?;
    file.extend_from_slice(&UNITS)?;
    file.extend_from_slice(&[0, 0x8b])?;
    file.extend_from_slice(&[0; 40])?;
    file.extend_from_slice(&[0xff; 4])?;
    file.extend_from_slice(body)?;
    file.push(0x8c)?;
    let post = file.len();
    file.extend_from_slice(&[0xf8, 0, 0, 0, 15])?;
    file.extend_from_slice(&UNITS)?;
    file.extend_from_slice(&[0, 0, 0, 0, 0, 0, 0, 0, 0, 2, 0, 1, 0xf9])?;
    file.extend_from_slice(&place(post))?;
    file.extend_from_slice(&[2, 223, 223, 223, 223])?;
    Ok(file)
}
