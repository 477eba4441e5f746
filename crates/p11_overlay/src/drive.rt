//! A drive as the image that was mounted, and the sectors that were prepared or written since.
ghost use Rattle.std.specs.Prelude.{◌≡◌, ℕ, ◌<◌, ◌≤◌, ◌+◌, ◌-◌, ◌++◌, true, false, cond, nat_eq, length, replicate, vec_len, vec_capacity, [], Some, None, IsTrue, IfOk, OnOk, OnErr, IsOk};
ghost use Rattle.std.specs.List.{list_any};
ghost use Rattle.indexmap.specs.IndexMap.{get, index_map_len, keys, IsUnchanged};
ghost use Rattle.p11_overlay.specs.Drive.{changed_with, filled, sector_within};
ghost use Rattle.p11_overlay.specs.Geometry.{all_sectors, image_bytes, sector_bytes};
ghost use Rattle.p11_overlay.specs.Kept.Sectors.{base_of, base_sector};

use crate::geometry::{ALL_SECTORS, IMAGE_BYTES, SECTOR_BYTES};
use indexmap::IndexMap;
use std::alloc::{AllocError, Allocator, Global};
use std::hash::{BuildHasherDefault, FoldHasher};
use std::marker::Model;

/// Sectors by their numbers.
type KeptSectors<A> = IndexMap<u16, [u8; SECTOR_BYTES], BuildHasherDefault<FoldHasher>, A>;

/// What stands on each sector behind the mounted image.
static ZEROS: [u8; SECTOR_BYTES] = [0; SECTOR_BYTES];

/// An RK05 drive with a pack on it: 4,872 sectors of 512 bytes, a write-protect mark, and the list of
/// the sectors that were written since the mount.
///
/// Sectors are numbered from 0: (cylinder * 2 + surface) * 12 + sector of the track. A sector is
/// written in two steps, so that the second can't fail: `prepare` finds what memory the write may
/// need, and `write` takes none.
#[derive(Drop)]
pub struct Drive<A: Allocator = Global> {
    /// The mounted image, in whole sectors.
    base: Vec<[u8; SECTOR_BYTES], A>,
    /// The sectors that were prepared or written, which stand over the base's.
    kept: KeptSectors<A>,
    is_protected: bool,
    /// The numbers of the written sectors, with room for as many as are kept.
    changed: Vec<u16, A>,
}

impl<A: Allocator> Model for Drive<A> {
    ghost use Rattle.std.specs.Prelude.{nat_eq, length, vec_capacity};
    ghost use Rattle.indexmap.specs.IndexMap.{get, index_map_len, keys};
    ghost use Rattle.p11_overlay.specs.Kept.Prepared.{DriveState};
    ghost use Rattle.p11_overlay.specs.Kept.Sectors.{contents_of, IsKept};

    ghost Value = { DriveState };

    ghost view = { λ d. record {
      contents = contents_of d.base.items (λ n. get nat_eq d.kept n) d.is_protected d.changed.items;
      prepared = keys d.kept;
    } };

    ghost invariant = { λ d.
        IsKept d.base.items (λ n. get nat_eq d.kept n) (index_map_len d.kept) d.changed.items (vec_capacity d.changed) };
}

impl<A: Allocator + Copy> Drive<A> {
    ghost use Rattle.p11_overlay.specs.Drive.{mounted, image_of};

    /// A drive on which an image of at most `IMAGE_BYTES` bytes is mounted: its bytes from sector 0
    /// on, and zeros behind them. No sector is changed yet. An `Err` says that there was no memory for
    /// the image's bytes in whole sectors; nothing else is taken.
    pub fn mount(alloc: A, image: &[u8], protected: bool) -> Result<Self, AllocError>
        requires { length image.now ≤ image_bytes }
        ensures contents { IfOk result (λ d. d.contents ≡ mounted image.now protected) }
        ensures bytes { IfOk result (λ d. image_of d.contents ≡ filled image.now) }
        ensures prepared { IfOk result (λ d. d.prepared ≡ []) }
    {
        let base = sectors_with_bytes(alloc, image)?;
        Ok(Drive {
            base,
            kept: IndexMap::new(alloc),
            is_protected: protected,
            changed: Vec::new(alloc),
        })
    }
}

impl<A: Allocator> Drive<A> {
    ghost use Rattle.p11_overlay.specs.Kept.Prepared.{IsPrepared, IsChanged, IsWhole};
    ghost use Rattle.p11_overlay.specs.Drive.{sector_of, sectors_of, image_of, written};

    /// The 512 bytes of sector `n`, 0 to 4,871, as they were written last.
    pub fn sector(&self, n: u16) -> &[u8]
        requires { n < all_sectors }
        ensures bytes { result.now ≡ sector_of self.now.contents n }
        ensures len { length result.now ≡ sector_bytes }
        ensures whole { IsWhole self.now.contents }
    {
        match self.kept.get(&n) {
            Some(bytes) => bytes.as_slice(),
            None => mounted_sector(&self.base, n).as_slice(),
        }
    }

    /// Finds the memory that a write of sector `n` needs, and changes nothing of what the drive holds.
    /// An `Err` says that there was no memory, and leaves the drive as it was; a sector that is prepared
    /// or changed already needs none. No sector is prepared by the mount.
    pub fn prepare(&mut self, n: u16) -> Result<(), AllocError>
        requires { n < all_sectors }
        ensures contents { self.new.contents ≡ self.old.contents }
        ensures ok { OnOk result (IsPrepared self.new n) }
        ensures others { (m : ℕ) → IsPrepared self.old m → IsPrepared self.new m }
        ensures err { OnErr result (self.new ≡ self.old) }
        ensures prepared { IsPrepared self.old n → IsOk result }
        ensures changed { IsChanged self.old.contents n → IsOk result }
    {
        if self.kept.contains_key(&n) {
            return Ok(());
        }
        let bytes = *mounted_sector(&self.base, n);
        make_room(&mut self.changed, self.kept.len() + 1)?;
        keep(&mut self.kept, n, bytes)?;
        Ok(())
    }

    /// Writes sector `n`, which is prepared. It is changed from its first write on, whatever was
    /// written.
    pub fn write(&mut self, n: u16, bytes: &[u8; SECTOR_BYTES])
        requires within { n < all_sectors }
        requires ready { IsPrepared self.old n }
        ensures contents { self.new.contents ≡ written self.old.contents n bytes.now }
        ensures prepared { self.new.prepared ≡ self.old.prepared }
    {
        rewrite(&mut self.kept, n, bytes);
        add_once(&mut self.changed, n);
    }

    /// The numbers of the sectors that were written since the mount, in the order of their first
    /// writes.
    pub fn changed(&self) -> &[u16]
        ensures numbers { result.now ≡ self.now.contents.changed }
        ensures len { length result.now ≤ all_sectors }
        ensures whole { IsWhole self.now.contents }
    {
        self.changed.as_slice()
    }

    /// A copy of all sectors, joined. An `Err` says that there was no memory.
    pub fn image(&self, alloc: A) -> Result<Vec<u8, A>, AllocError>
        ensures bytes { IfOk result (λ v. v.items ≡ image_of self.now.contents) }
        ensures len { IfOk result (λ v. length v.items ≡ image_bytes) }
        // mounted again, the image makes the same sectors
        ensures again { IfOk result (λ v. sectors_of v.items ≡ self.now.contents.sectors) }
    {
        let _ = &self.base;
        let mut image = Vec::with_capacity(alloc, IMAGE_BYTES)?;
        for n in 0..ALL_SECTORS {
            image.extend_from_slice(self.sector(n))?;
        }
        Ok(image)
    }

    /// Whether the drive is write-protected. The mark is kept here and judged by the controller:
    /// `write` doesn't ask.
    pub fn protected(&self) -> bool
        ensures { result ≡ self.now.contents.protected }
    {
        self.is_protected
    }

    /// Write-protects the drive for as long as the pack stays.
    pub fn protect(&mut self)
        ensures contents { self.new.contents ≡ record self.old.contents { protected = true } }
        ensures prepared { self.new.prepared ≡ self.old.prepared }
    {
        self.is_protected = true;
    }
}

/// The sectors on which an image has bytes, with zeros behind the image's last byte.
fn sectors_with_bytes<A: Allocator>(
    alloc: A,
    image: &[u8],
) -> Result<Vec<[u8; SECTOR_BYTES], A>, AllocError>
    requires { length image.now ≤ image_bytes }
    ensures { IfOk result (λ v. v.items ≡ base_of image.now) }
{
    let count = image.len().div_ceil(SECTOR_BYTES);
    let mut sectors = Vec::with_capacity(alloc, count)?;
    for n in 0..count {
        sectors.push(sector_at(image, n))?;
    }
    Ok(sectors)
}

/// Sector `n` of an image, with zeros behind the image's last byte.
fn sector_at(image: &[u8], n: usize) -> [u8; SECTOR_BYTES]
    requires within { n < all_sectors }
    requires fits { length image.now ≤ image_bytes }
    ensures { result ≡ sector_within (filled image.now) n }
{
    let start = (n * SECTOR_BYTES).min(image.len());
    let rest = &image[start..];
    let len = rest.len().min(SECTOR_BYTES);
    with_zeros(&rest[..len])
}

/// A sector of bytes with zeros behind them.
fn with_zeros(bytes: &[u8]) -> [u8; SECTOR_BYTES]
    requires { length bytes.now ≤ sector_bytes }
    ensures { result ≡ bytes.now ++ replicate (sector_bytes - length bytes.now) 0 }
{
    let mut sector = [0; SECTOR_BYTES];
    sector[..bytes.len()].copy_from_slice(bytes);
    sector
}

/// Puts `n` last in a list that lacks it and has room for it, and leaves a list that has it.
fn add_once<A: Allocator>(list: &mut Vec<u16, A>, n: u16)
    requires { list_any (nat_eq n) list.old.items ≡ false → vec_len list.old < vec_capacity list.old }
    ensures items { list.new.items ≡ changed_with list.old.items n }
    ensures capacity { vec_capacity list.old ≤ vec_capacity list.new }
{
    if !list.contains(&n) {
        let _ = list.push(n);
    }
}

/// Sector `n` of the mounted image: zeros where the image has no bytes.
#[tactic(auto, unfolding(crate::specs::Kept::Sectors::base_sector))]
fn mounted_sector(base: &[[u8; SECTOR_BYTES]], n: u16) -> &[u8; SECTOR_BYTES]
    ensures { result.now ≡ base_sector base.now n }
{
    match base.get(usize::from(n)) {
        Some(sector) => sector,
        None => &ZEROS,
    }
}

/// Finds room for just so many numbers, so that each sector asks for room of its own.
fn make_room<A: Allocator>(list: &mut Vec<u16, A>, count: usize) -> Result<(), AllocError>
    ensures items { list.new.items ≡ list.old.items }
    ensures room { OnOk result (count ≤ vec_capacity list.new) }
    ensures err { OnErr result (vec_capacity list.new ≡ vec_capacity list.old) }
{
    list.reserve(count.saturating_sub(list.len()))?;
    list.shrink_to(count);
    Ok(())
}

/// Keeps a sector that isn't kept yet. An `Err` says that there was no memory, and keeps none.
fn keep<A: Allocator>(
    kept: &mut KeptSectors<A>,
    n: u16,
    bytes: [u8; SECTOR_BYTES],
) -> Result<(), AllocError>
    requires { get nat_eq kept.old n ≡ None }
    ensures updates { OnOk result ((q : ℕ) → get nat_eq kept.new q ≡ cond (nat_eq n q) (Some bytes) (get nat_eq kept.old q)) }
    ensures len { OnOk result (index_map_len kept.new ≡ index_map_len kept.old + 1) }
    ensures err { OnErr result (IsUnchanged kept.old kept.new) }
{
    match kept.insert(n, bytes) {
        Ok(_) => Ok(()),
        Err(_) => Err(AllocError),
    }
}

/// Puts other bytes in the place of a sector that is kept.
fn rewrite<A: Allocator>(kept: &mut KeptSectors<A>, n: u16, bytes: &[u8; SECTOR_BYTES])
    requires { IsTrue (list_any (nat_eq n) (keys kept.old)) }
    ensures updates { (q : ℕ) → get nat_eq kept.new q ≡ cond (nat_eq n q) (Some bytes.now) (get nat_eq kept.old q) }
    ensures keys { keys kept.new ≡ keys kept.old }
    ensures len { index_map_len kept.new ≡ index_map_len kept.old }
{
    match kept.insert(n, *bytes) {
        Ok(_) => return,
        Err(_) => return,
    }
}
