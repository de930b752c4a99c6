//! The head of the file.
ghost use Rattle.std.specs.Prelude.{◌≡◌, IfOk};
ghost use Rattle.las_make.specs.Made.{IsInRange, blank_head};

use crate::settings::{Settings, record_length};
use las_header::{HEADER_BLOCK, Head};
use std::alloc::{AllocError, Global};

// 0.01, as the bytes of its double.
const SCALE: [u8; 8] = [0x7b, 0x14, 0xae, 0x47, 0xe1, 0x7a, 0x84, 0x3f];

// The bytes of a head with counts of zero.
fn blank_bytes(alloc: Global, settings: Settings) -> Result<Vec<u8>, AllocError>
    requires { IsInRange settings }
    ensures { IfOk result (λ head. head.items ≡ blank_head settings) }
{
    let length = record_length(settings) as u16;
    let size = HEADER_BLOCK as u32;
    let mut head = Vec::with_capacity(alloc, HEADER_BLOCK)?;
    head.extend_from_slice(b"LASF")?;
    head.extend_from_slice(&[0; 20])?;
    head.extend_from_slice(&[1, 2])?;
    head.extend_from_slice(&[0; 68])?;
    head.extend_from_slice(&(HEADER_BLOCK as u16).to_le_bytes())?;
    head.extend_from_slice(&size.to_le_bytes())?;
    head.extend_from_slice(&0u32.to_le_bytes())?;
    head.extend_from_slice(&[settings.format])?;
    head.extend_from_slice(&length.to_le_bytes())?;
    head.extend_from_slice(&[0; 24])?;
    head.extend_from_slice(&SCALE)?;
    head.extend_from_slice(&SCALE)?;
    head.extend_from_slice(&SCALE)?;
    head.extend_from_slice(&[0; 72])?;
    Ok(head)
}

/// The head with counts of zero.
pub(crate) fn blank_head(alloc: Global, settings: Settings) -> Result<Head, AllocError>
    requires { IsInRange settings }
    ensures { IfOk result (λ head. head.bytes ≡ blank_head settings) }
{
    let bytes = blank_bytes(alloc, settings)?;
    match Head::read(bytes, HEADER_BLOCK as u64) {
        Ok(head) => Ok(head),
        Err(_) => unreachable!("it is a head"),
    }
}
