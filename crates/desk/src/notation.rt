use std::alloc::{AllocError, Global};

/// Two bytes for each number, the low one first.
pub fn bytes_of(alloc: Global, numbers: &[u16]) -> Result<Vec<u8>, AllocError> {
    let mut bytes = Vec::new(alloc);
    for number in numbers {
        bytes.extend_from_slice(&number.to_le_bytes())?;
    }
    Ok(bytes)
}

/// Puts a record after a file. It is written as on the pages, its kind first and then its fields; with no kind it is none.
pub fn put_record(file: &mut Vec<u8>, record: &[u16]) -> Result<(), AllocError> {
    let [kind, fields @ ..] = record else {
        return Ok(());
    };
    let size = 2 * fields.len().min(32767) as u16;
    file.extend_from_slice(&size.to_le_bytes())?;
    file.extend_from_slice(&kind.to_le_bytes())?;
    for field in fields {
        file.extend_from_slice(&field.to_le_bytes())?;
    }
    Ok(())
}

/// A label as a row of bits.
pub fn row_of(label: &[u16]) -> [u64; 16] {
    let mut row = [0; 16];
    for c in label {
        row[*c as usize / 64 % 16] |= 1 << (c % 64);
    }
    row
}
