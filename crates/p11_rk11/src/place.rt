//! Drives, cylinders and the disk address register, RKDA.
ghost use Rattle.std.specs.Prelude.{◌≡◌, ◌<◌, ◌^◌, true};
ghost use Rattle.p11_rk11.specs.Place.{place_of_word, word_of_place, sector_number, next_place};
ghost use Rattle.p11_rk11.specs.Calls.Places.{is_on_disk};

use std::marker::Model;

/// The number of one of the eight drives, 0 to 7.
#[derive(Clone, Copy)]
pub struct DriveNumber(u8);

impl Model for DriveNumber {
    ghost use Rattle.std.specs.Prelude.{ℕ, ◌<◌};

    ghost Value = { ℕ };

    ghost view = { λ n. n.0 };

    ghost invariant = { λ n. n.0 < 8 };

    ghost inverse = { λ n. record { 0 = n } };
}

impl DriveNumber {
    pub(crate) fn new(number: u8) -> DriveNumber
        requires { number < 8 }
        ensures { result ≡ number }
    {
        DriveNumber(number)
    }

    pub(crate) fn number(self) -> u8
        ensures value { result ≡ self }
        ensures bound { result < 8 }
    {
        self.0
    }
}

/// The number of one of a pack's 203 cylinders, 0 to 202.
#[derive(Clone, Copy)]
pub struct Cylinder(u8);

impl Model for Cylinder {
    ghost use Rattle.std.specs.Prelude.{ℕ, ◌<◌};

    ghost Value = { ℕ };

    ghost view = { λ c. c.0 };

    ghost invariant = { λ c. c.0 < 203 };

    ghost inverse = { λ n. record { 0 = n } };
}

impl Cylinder {
    pub(crate) fn new(number: u8) -> Cylinder
        requires { number < 203 }
        ensures { result ≡ number }
    {
        Cylinder(number)
    }

    pub(crate) fn number(self) -> u8
        ensures value { result ≡ self }
        ensures bound { result < 203 }
    {
        self.0
    }
}

/// RKDA: a drive and a place on it, which may lie outside its 203 cylinders of 12 sectors.
#[derive(Clone, Copy)]
pub struct DiskAddress {
    drive: u8,
    cylinder: u8,
    surface: u8,
    sector: u8,
}

impl Model for DiskAddress {
    ghost use Rattle.std.specs.Prelude.{◌<◌};
    ghost use Rattle.p11_rk11.specs.Place.{Place};

    ghost Value = { Place };

    ghost view = { λ a. record { drive = a.drive; cylinder = a.cylinder; surface = a.surface; sector = a.sector } };

    ghost invariant = { λ a. (a.drive < 8) × (a.cylinder < 256) × (a.surface < 2) × (a.sector < 16) };

    ghost inverse = { λ p. record { drive = p.drive; cylinder = p.cylinder; surface = p.surface; sector = p.sector } };
}

impl DiskAddress {
    /// The place of a word of RKDA.
    #[tactic(auto, unfolding(crate::specs::Place::place_of_word))]
    pub(crate) fn from_word(word: u16) -> DiskAddress
        ensures { result ≡ place_of_word word }
    {
        DiskAddress {
            drive: (word >> 13) as u8,
            cylinder: (word >> 5 & 0o377) as u8,
            surface: (word >> 4 & 1) as u8,
            sector: (word & 0o17) as u8,
        }
    }

    /// The word of RKDA.
    #[tactic(auto, unfolding(crate::specs::Place::word_of_place))]
    pub(crate) fn word(self) -> u16
        ensures { result ≡ word_of_place self }
    {
        u16::from(self.drive) * 0o20000
            + u16::from(self.cylinder) * 0o40
            + u16::from(self.surface) * 0o20
            + u16::from(self.sector)
    }

    /// The drive, 0 to 7.
    pub(crate) fn drive(self) -> usize
        ensures value { result ≡ self.drive }
        ensures bound { result < 8 }
    {
        usize::from(self.drive)
    }

    pub(crate) fn cylinder(self) -> u8
        ensures { result ≡ self.cylinder }
    {
        self.cylinder
    }

    /// The cylinder of a place on the pack.
    #[tactic(auto, unfolding(crate::specs::Calls::Places::is_on_disk))]
    pub(crate) fn cylinder_on_disk(self) -> Cylinder
        requires { is_on_disk self ≡ true }
        ensures { result ≡ self.cylinder }
    {
        Cylinder::new(self.cylinder)
    }

    pub(crate) fn sector(self) -> u8
        ensures { result ≡ self.sector }
    {
        self.sector
    }

    /// Whether the pack has such a sector.
    #[tactic(auto, unfolding(crate::specs::Calls::Places::is_on_disk))]
    pub(crate) fn is_on_disk(self) -> bool
        ensures { result ≡ is_on_disk self }
    {
        if self.sector >= 12 {
            return false;
        }
        self.cylinder < 203
    }

    /// The sector's number on its drive.
    #[tactic(auto, unfolding(crate::specs::Calls::Places::is_on_disk, crate::specs::Place::sector_number))]
    pub(crate) fn sector_number(self) -> u16
        requires { is_on_disk self ≡ true }
        ensures value { result ≡ sector_number self }
        ensures bound { result < 4872 }
    {
        (u16::from(self.cylinder) * 2 + u16::from(self.surface)) * 12 + u16::from(self.sector)
    }

    /// The next sector: of the track, else of the other surface, else of the next cylinder.
    #[tactic(auto, unfolding(crate::specs::Calls::Places::is_on_disk, crate::specs::Place::next_place))]
    pub(crate) fn next(self) -> DiskAddress
        requires { is_on_disk self ≡ true }
        ensures { result ≡ next_place self }
    {
        if self.sector < 11 {
            DiskAddress {
                drive: self.drive,
                cylinder: self.cylinder,
                surface: self.surface,
                sector: self.sector + 1,
            }
        } else if self.surface == 0 {
            DiskAddress {
                drive: self.drive,
                cylinder: self.cylinder,
                surface: 1,
                sector: 0,
            }
        } else {
            DiskAddress {
                drive: self.drive,
                cylinder: self.cylinder + 1,
                surface: 0,
                sector: 0,
            }
        }
    }
}
