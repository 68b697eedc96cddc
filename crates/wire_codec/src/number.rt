ghost use Rattle.std.specs.Prelude.{◌≡◌, ◌+◌, ◌-◌, ◌^◌, ◌<◌, ◌≤◌, ◌++◌, ℕ, Ok, Err, IfOk, OnOk, IsErrOf, length, take, drop};
ghost use Rattle.wire_codec.specs.Reading.{number, number_bytes, place_of, text};
ghost use Rattle.wire_codec.specs.declared.fault.DecodeFault.TheVariants.{NoMemory as OutOfMemory, NotEnvelope as RefusedAt};

use crate::fault::DecodeFault;
use byteorder::{BigEndian, ByteOrder};
use host_ids::NoMemory;

/// Adds a number in two bytes. The only error is `NoMemory`.
pub fn write_16(out: &mut Vec<u8>, number: u16) -> Result<(), NoMemory>
    ensures { OnOk result (out.new.items ≡ out.old.items ++ number_bytes 2 number) }
{
    let mut field = [0; 2];
    BigEndian::write_u16(&mut field, number);
    out.extend_from_slice(&field)?;
    Ok(())
}

/// Adds a number in four bytes. The only error is `NoMemory`.
pub fn write_32(out: &mut Vec<u8>, number: u32) -> Result<(), NoMemory>
    ensures { OnOk result (out.new.items ≡ out.old.items ++ number_bytes 4 number) }
{
    let mut field = [0; 4];
    BigEndian::write_u32(&mut field, number);
    out.extend_from_slice(&field)?;
    Ok(())
}

/// Adds a number in eight bytes. The only error is `NoMemory`.
pub fn write_64(out: &mut Vec<u8>, number: u64) -> Result<(), NoMemory>
    ensures bytes { OnOk result (out.new.items ≡ out.old.items ++ number_bytes 8 number) }
    ensures fits { number < 2 ^ 64 }
{
    let mut field = [0; 8];
    BigEndian::write_u64(&mut field, number);
    out.extend_from_slice(&field)?;
    Ok(())
}

/// Where the bytes at a place stop being those of a number of `size` bytes from `least` to `most`:
/// with the first byte that fits no such number, at the end of the bytes, or after the number.
fn first_wrong(bytes: &[u8], at: usize, size: usize, least: u64, most: u64) -> usize
    requires there { at ≤ length bytes.now }
    requires narrow { size ≤ 8 }
    ensures { result ≡ place_of (number size least most bytes.now at) }
{
    let mut read: u64 = 0;
    let mut next = at;
    let mut left = size;
    while 0 < left && next < bytes.len() {
        left -= 1;
        read = read * 256 + u64::from(bytes[next]);
        let shift = 8 * left as u32;
        if read < least >> shift || most >> shift < read {
            return next;
        }
        next += 1;
    }
    next
}

/// A number of eight bytes at a place, from `least` to `most`, which isn't below `least`.
///
/// `NotEnvelope` comes exactly where no such number stands there. No memory is needed.
pub fn read_64(bytes: &[u8], at: usize, least: u64, most: u64) -> Result<u64, DecodeFault>
    requires there { at ≤ length bytes.now }
    requires order { least ≤ most }
    ensures number { IfOk result (λ n. number 8 least most bytes.now at ≡ Ok (n, at + 8)) }
    ensures within { IfOk result (λ n. at + 8 ≤ length bytes.now) }
    ensures range { IfOk result (λ n. (least ≤ n) × (n ≤ most)) }
    ensures not_envelope { (place : ℕ) → IsErrOf result (RefusedAt place) → number 8 least most bytes.now at ≡ Err place }
    ensures no_memory { IsErrOf result OutOfMemory → ⊥ }
{
    if 8 <= bytes.len() - at {
        let number = BigEndian::read_u64(&bytes[at..]);
        if least <= number && number <= most {
            return Ok(number);
        }
    }
    Err(DecodeFault::NotEnvelope {
        at: first_wrong(bytes, at, 8, least, most),
    })
}

/// A number of four bytes at a place, from `least` to `most`, which isn't below `least`.
///
/// `NotEnvelope` comes exactly where no such number stands there. No memory is needed.
pub fn read_32(bytes: &[u8], at: usize, least: u32, most: u32) -> Result<u32, DecodeFault>
    requires there { at ≤ length bytes.now }
    requires order { least ≤ most }
    ensures number { IfOk result (λ n. number 4 least most bytes.now at ≡ Ok (n, at + 4)) }
    ensures within { IfOk result (λ n. at + 4 ≤ length bytes.now) }
    ensures range { IfOk result (λ n. (least ≤ n) × (n ≤ most)) }
    ensures not_envelope { (place : ℕ) → IsErrOf result (RefusedAt place) → number 4 least most bytes.now at ≡ Err place }
    ensures no_memory { IsErrOf result OutOfMemory → ⊥ }
{
    if 4 <= bytes.len() - at {
        let number = BigEndian::read_u32(&bytes[at..]);
        if least <= number && number <= most {
            return Ok(number);
        }
    }
    Err(DecodeFault::NotEnvelope {
        at: first_wrong(bytes, at, 4, u64::from(least), u64::from(most)),
    })
}

/// A number of two bytes at a place, from `least` to `most`, which isn't below `least`.
///
/// `NotEnvelope` comes exactly where no such number stands there. No memory is needed.
pub fn read_16(bytes: &[u8], at: usize, least: u16, most: u16) -> Result<u16, DecodeFault>
    requires there { at ≤ length bytes.now }
    requires order { least ≤ most }
    ensures number { IfOk result (λ n. number 2 least most bytes.now at ≡ Ok (n, at + 2)) }
    ensures within { IfOk result (λ n. at + 2 ≤ length bytes.now) }
    ensures range { IfOk result (λ n. (least ≤ n) × (n ≤ most)) }
    ensures not_envelope { (place : ℕ) → IsErrOf result (RefusedAt place) → number 2 least most bytes.now at ≡ Err place }
    ensures no_memory { IsErrOf result OutOfMemory → ⊥ }
{
    if 2 <= bytes.len() - at {
        let number = BigEndian::read_u16(&bytes[at..]);
        if least <= number && number <= most {
            return Ok(number);
        }
    }
    Err(DecodeFault::NotEnvelope {
        at: first_wrong(bytes, at, 2, u64::from(least), u64::from(most)),
    })
}

/// The byte at a place, a number from `least` to `most`, which isn't below `least`.
///
/// `NotEnvelope` comes exactly where no such byte stands there. No memory is needed.
pub fn read_8(bytes: &[u8], at: usize, least: u8, most: u8) -> Result<u8, DecodeFault>
    requires there { at ≤ length bytes.now }
    requires order { least ≤ most }
    ensures number { IfOk result (λ n. number 1 least most bytes.now at ≡ Ok (n, at + 1)) }
    ensures within { IfOk result (λ n. at + 1 ≤ length bytes.now) }
    ensures range { IfOk result (λ n. (least ≤ n) × (n ≤ most)) }
    ensures not_envelope { (place : ℕ) → IsErrOf result (RefusedAt place) → number 1 least most bytes.now at ≡ Err place }
    ensures no_memory { IsErrOf result OutOfMemory → ⊥ }
{
    if at < bytes.len() {
        let number = bytes[at];
        if least <= number && number <= most {
            return Ok(number);
        }
    }
    Err(DecodeFault::NotEnvelope {
        at: first_wrong(bytes, at, 1, u64::from(least), u64::from(most)),
    })
}

/// The `size` bytes from a place on.
///
/// `NotEnvelope` comes exactly where there are fewer, with the length of the bytes as its place. No
/// memory is needed.
pub fn read_text(bytes: &[u8], at: usize, size: usize) -> Result<&[u8], DecodeFault>
    requires there { at ≤ length bytes.now }
    ensures text { IfOk result (λ t. text size bytes.now at ≡ Ok (t.now, at + size)) }
    ensures within { IfOk result (λ t. (at + size ≤ length bytes.now) × (length t.now ≡ size)) }
    ensures not_envelope { (place : ℕ) → IsErrOf result (RefusedAt place) → text size bytes.now at ≡ Err place }
    ensures no_memory { IsErrOf result OutOfMemory → ⊥ }
{
    if bytes.len() - at < size {
        return Err(DecodeFault::NotEnvelope { at: bytes.len() });
    }
    Ok(&bytes[at..at + size])
}
