//! A reference: the parts of its virtual address, and the causes that abort it.
ghost use Rattle.std.specs.Prelude.{◌≡◌, ◌+◌, ◌*◌, ◌%◌, ◌^◌, ◌<◌, true, IfErr, IfOk};
ghost use Rattle.p11_kt11.specs.Reference.{any_cause, block_number, causes_of, forbids, is_absent, is_beyond, no_cause, no_page, page_number, physical, unmapped};
ghost use Rattle.p11_kt11.specs.Translation.{through};

use crate::page::{Page, access, is_downward, length_field};

/// Whether a reference reads or writes. A fetch is a read.
#[derive(Clone, Copy)]
pub enum Kind {
    Read,
    Write,
}

/// A set of causes of an abort, as SR0 15:13 shows them.
#[derive(Clone, Copy, Debug, PartialEq, Eq)]
pub struct Causes {
    /// The page gives no access, or the mode has no pages.
    pub non_resident: bool,
    /// The block is beyond the page's length.
    pub page_length: bool,
    /// A write to a page that is read only.
    pub read_only: bool,
}

impl Causes {
    #[tactic(auto, unfolding(crate::specs::Reference::no_cause))]
    pub(crate) fn none() -> Self
        ensures { result ≡ no_cause }
    {
        Causes {
            non_resident: false,
            page_length: false,
            read_only: false,
        }
    }

    /// The one cause against a reference in mode 01 or 10, which have no pages.
    #[tactic(auto, unfolding(crate::specs::Reference::no_page, crate::specs::Reference::any_cause))]
    pub(crate) fn no_page() -> Self
        ensures value { result ≡ no_page }
        ensures caused { any_cause result ≡ true }
    {
        Causes {
            non_resident: true,
            page_length: false,
            read_only: false,
        }
    }

    /// All the causes that hold against a reference to a block through a page with this descriptor.
    #[tactic(auto, unfolding(crate::specs::Reference::causes_of))]
    pub(crate) fn against(descriptor: u16, block: u8, kind: Kind) -> Self
        ensures { result ≡ causes_of descriptor block kind }
    {
        Causes {
            non_resident: is_absent(descriptor),
            page_length: is_beyond(descriptor, block),
            read_only: forbids(descriptor, kind),
        }
    }

    /// Whether there is a cause.
    #[tactic(auto, unfolding(crate::specs::Reference::any_cause))]
    #[inline(always)]
    pub(crate) fn any(self) -> bool
        ensures { result ≡ any_cause self }
    {
        self.non_resident | self.page_length | self.read_only
    }
}

/// What a reference gets in place of a physical address.
#[derive(Clone, Copy, Debug, PartialEq, Eq)]
pub struct Abort {
    /// All the causes that hold, at least one.
    pub causes: Causes,
}

/// Whether a page with this descriptor aborts every reference: ACF 00 or 10.
#[tactic(auto, unfolding(crate::specs::Reference::is_absent))]
pub(crate) fn is_absent(descriptor: u16) -> bool
    ensures { result ≡ is_absent descriptor }
{
    access(descriptor) % 2 == 0
}

/// Whether a block is beyond the length of a page with this descriptor.
#[tactic(auto, unfolding(crate::specs::Reference::is_beyond))]
fn is_beyond(descriptor: u16, block: u8) -> bool
    ensures { result ≡ is_beyond descriptor block }
{
    let length = length_field(descriptor);
    if is_downward(descriptor) {
        block < length
    } else {
        block > length
    }
}

/// Whether a page with this descriptor aborts a reference of this kind alone: ACF 01 aborts writes.
#[tactic(auto, unfolding(crate::specs::Reference::forbids))]
pub(crate) fn forbids(descriptor: u16, kind: Kind) -> bool
    ensures { result ≡ forbids descriptor kind }
{
    match kind {
        Kind::Read => false,
        Kind::Write => access(descriptor) == 1,
    }
}

/// The page of a virtual address, bits 15:13.
#[tactic(auto, unfolding(crate::specs::Reference::page_number))]
#[inline(always)]
pub(crate) fn page_number(address: u16) -> u8
    ensures value { result ≡ page_number address }
    ensures bound { result < 8 }
{
    (address >> 13) as u8
}

/// The block in the page of a virtual address, bits 12:6.
#[tactic(auto, unfolding(crate::specs::Reference::block_number))]
#[inline(always)]
pub(crate) fn block_number(address: u16) -> u8
    ensures value { result ≡ block_number address }
    ensures bound { result < 128 }
{
    (address >> 6 & 0o177) as u8
}

/// The place of a virtual address in its page, bits 12:0.
#[tactic(auto, unfolding(crate::specs::Reference::block_number))]
#[inline(always)]
fn displacement(address: u16) -> u32
    ensures value { result ≡ block_number address * 0o100 + address % 0o100 }
    ensures bound { result < 0o20000 }
{
    u32::from(address & 0o17777)
}

/// The physical address of a virtual address through a page.
#[tactic(auto, unfolding(crate::specs::Reference::physical))]
#[inline(always)]
pub(crate) fn physical(page: Page, address: u16) -> u32
    ensures value { result ≡ physical page address }
    ensures bound { result < 2 ^ 18 }
    ensures parity { result % 2 ≡ address % 2 }
{
    (u32::from(page.address) * 0o100 + displacement(address)) & 0o777777
}

/// The physical address of a virtual address while mapping is off: the upper 8 KB are the I/O page.
#[tactic(auto, unfolding(crate::specs::Reference::unmapped))]
#[inline(always)]
pub(crate) fn unmapped(address: u16) -> u32
    ensures value { result ≡ unmapped address }
    ensures bound { result < 2 ^ 18 }
    ensures parity { result % 2 ≡ address % 2 }
{
    if address < 0o160000 {
        u32::from(address)
    } else {
        u32::from(address) + 0o600000
    }
}

/// The physical address of a reference through a page, or the causes against it.
#[tactic(auto, unfolding(crate::specs::Translation::through))]
pub(crate) fn through(page: Page, address: u16, kind: Kind) -> Result<u32, Abort>
    ensures value { result ≡ through page address kind }
    ensures bound { IfOk result (λ p. p < 2 ^ 18) }
    ensures parity { IfOk result (λ p. p % 2 ≡ address % 2) }
    ensures caused { IfErr result (λ abort. any_cause abort.causes ≡ true) }
{
    let causes = Causes::against(page.descriptor, block_number(address), kind);
    if causes.any() {
        return Err(Abort { causes });
    }
    Ok(physical(page, address))
}
