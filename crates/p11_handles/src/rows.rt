// Files as one row of bytes.
ghost use Rattle.std.specs.Prelude.{◌≡◌, ◌≤◌, ◌<◌, ◌^◌, ◌++◌, length, drop, MatchOption, IfSome, IfOk, IfErr, OnOk};
ghost use Rattle.std.specs.Prelude.{◌⊎◌};
ghost use Rattle.p11_store.specs.Calls.Files.{NamedBytes};
ghost use Rattle.p11_handles.specs.Rows.{number_bytes, counted, row_of, Follows, FollowsFile, HasNoFile, HasNoBytes};
ghost use Rattle.p11_handles.specs.Rows.{IsRow, IsNoRow, RowsReadBack};

use crate::status::Status;
use crate::store::StoredFile;
use std::alloc::{AllocError, Global};

/// A number in 4 bytes, the lowest first.
#[tactic(auto, unfolding(crate::specs::Rows::number_bytes))]
fn number_bytes(number: usize) -> [u8; 4]
    ensures { result ≡ number_bytes number }
{
    [
        (number % 256) as u8,
        (number / 256 % 256) as u8,
        (number / 65536 % 256) as u8,
        (number / 16777216 % 256) as u8,
    ]
}

/// The number in the first 4 bytes.
fn number(bytes: &[u8]) -> usize
    requires { 4 ≤ length bytes.now }
    ensures value { bytes.now ≡ number_bytes result ++ drop 4 bytes.now }
    ensures range { result < 2 ^ 32 }
{
    let low = usize::from(bytes[0]) + 256 * usize::from(bytes[1]);
    let high = usize::from(bytes[2]) + 256 * usize::from(bytes[3]);
    low + 65536 * high
}

/// The bytes at the front of a row, which stand behind their number, and what follows them.
fn next_bytes(row: &[u8]) -> Option<(&[u8], &[u8])>
    ensures bytes { MatchOption result (HasNoBytes row.now) (λ found. Follows row.now found.0.now found.1.now) }
    ensures shorter { IfSome result (λ found. length found.1.now < length row.now) }
{
    if row.len() < 4 {
        return None;
    }
    let count = number(row);
    let rest = &row[4..];
    if rest.len() < count {
        return None;
    }
    Some((&rest[..count], &rest[count..]))
}

/// A file at the front of a row.
#[derive(Drop)]
struct RowFile<'a> {
    name: &'a [u8],
    bytes: &'a [u8],
    /// What follows it.
    after: &'a [u8],
}

/// The file at the front of a row.
fn next_file(row: &[u8]) -> Option<RowFile<'_>>
    ensures file { MatchOption result (HasNoFile row.now)
        (λ found. FollowsFile row.now (record { name = found.name.now; bytes = found.bytes.now }) found.after.now) }
    ensures shorter { IfSome result (λ found. length found.after.now < length row.now) }
{
    let Some((name, rest)) = next_bytes(row) else {
        return None;
    };
    let Some((bytes, after)) = next_bytes(rest) else {
        return None;
    };
    Some(RowFile { name, bytes, after })
}

/// The files of a row.
///
/// # Errors
///
/// `BadFiles` for bytes that are no row of files, and `NoMemory`.
pub(crate) fn read_row(alloc: Global, row: &[u8]) -> Result<Vec<StoredFile>, Status>
    ensures ok { IfOk result (λ files. IsRow row.now files.items) }
    ensures err { IfErr result (λ status.
        (status ≡ Status.NoMemory) ⊎ ((status ≡ Status.BadFiles) × IsNoRow row.now)) }
{
    let mut files = Vec::new(alloc);
    let mut rest = row;
    while !rest.is_empty() {
        let Some(next) = next_file(rest) else {
            return Err(Status::BadFiles);
        };
        let file = StoredFile::new(alloc, next.name, next.bytes)?;
        files.push(file)?;
        rest = next.after;
    }
    Ok(files)
}

/// Puts bytes behind their number.
#[tactic(auto, unfolding(crate::specs::Rows::counted))]
fn put_bytes(row: &mut Vec<u8>, bytes: &[u8]) -> Result<(), AllocError>
    ensures { OnOk result (row.new.items ≡ row.old.items ++ counted bytes.now) }
{
    row.extend_from_slice(&number_bytes(bytes.len()))?;
    row.extend_from_slice(bytes)?;
    Ok(())
}

/// The row of files.
pub(crate) fn write_row(alloc: Global, files: &[StoredFile]) -> Result<Vec<u8>, AllocError>
    ensures { IfOk result (λ row. row.items ≡ row_of files.now) }
{
    let mut row = Vec::new(alloc);
    for file in files {
        put_bytes(&mut row, file.name())?;
        put_bytes(&mut row, file.bytes())?;
    }
    Ok(row)
}

/// A row of files is the row of one list of files alone.
pub fn rows_read_back()
    ensures { RowsReadBack }
{}
