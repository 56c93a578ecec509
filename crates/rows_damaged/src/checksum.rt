//! A checksum over texts.

use boxglue_print::Output;

/// The 64-bit FNV-1a hash of no bytes.
const OFFSET_BASIS: u64 = 0xcbf2_9ce4_8422_2325;

/// The number by which the hash is multiplied at each byte.
const PRIME: u64 = 0x0100_0000_01b3;

/// The 64-bit FNV-1a hash of the texts of these answers, one after the other.
pub fn checksum(answers: &[Output]) -> u64 {
    answers
        .iter()
        .flat_map(|answer| answer.text.iter())
        .fold(OFFSET_BASIS, |sum, byte| {
            (sum ^ u64::from(*byte)).wrapping_mul(PRIME)
        })
}
