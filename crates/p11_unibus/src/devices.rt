//! What the operator is shown of the devices on the bus.
ghost use Rattle.std.specs.Prelude.{◌≡◌, ◌<◌, ◌≤◌, ◌^◌, option_map};
ghost use Rattle.p11_rk11.specs.State.{drive_count, drive_of};
ghost use Rattle.p11_unibus.specs.Devices.{devices_of, disk_registers, drive_shown, drives_shown};

use crate::unibus::Unibus;
use p11_dl11::{Register as LineRegister, Section};
use p11_rk11::{DRIVES, Register as DiskRegister};
use std::alloc::Allocator;

/// What the operator is shown of the disk controller.
#[derive(Clone, Copy, PartialEq, Eq)]
pub struct DiskRegisters {
    /// RKDS, the drive status register.
    pub drive_status: u16,
    /// RKER, the error register.
    pub error: u16,
    /// RKCS, the control status register.
    pub control_status: u16,
    /// RKWC, the word count register.
    pub word_count: u16,
    /// RKBA, the bus address register.
    pub bus_address: u16,
    /// RKDA, the disk address register.
    pub disk_address: u16,
    /// The turn in which the running transfer moves its next sector.
    pub transfer_due: Option<u64>,
}

/// What the operator is shown of a drive on which a pack is mounted.
#[derive(Clone, Copy, PartialEq, Eq)]
pub struct DriveShown {
    /// Whether the drive is write-protected.
    pub protected: bool,
    /// The cylinder at which the heads are.
    pub cylinder: u8,
    /// How many sectors were written since the mount.
    pub changed: u32,
    /// The turn in which a seek is done, if one is under way.
    pub due: Option<u64>,
}

/// What the operator is shown of the devices on the bus.
#[derive(Clone, Copy, PartialEq, Eq)]
pub struct BusDevices {
    /// The line clock's status register.
    pub clock: u16,
    /// How many turns lie between two ticks that the line makes by itself; with 0 it makes none.
    pub clock_period: u32,
    /// The turn in which the line next ticks by itself.
    pub clock_due: Option<u64>,
    /// RCSR, the receiver's status register.
    pub receiver_status: u16,
    /// RBUF, the receiver's buffer.
    pub receiver_buffer: u16,
    /// XCSR, the transmitter's status register.
    pub transmitter_status: u16,
    /// How many keys wait.
    pub keys: u32,
    /// The turn in which the receiver takes a key if nothing else happens.
    pub receiver_due: Option<u64>,
    /// The turn in which the transmitter types a character if nothing else happens.
    pub transmitter_due: Option<u64>,
    /// The disk controller.
    pub disk: DiskRegisters,
    /// The drives by number, and `None` for an empty one.
    pub drives: [Option<DriveShown>; DRIVES],
    /// Whether the line clock requests an interrupt.
    pub clock_request: bool,
    /// Whether the disk controller requests an interrupt.
    pub disk_request: bool,
    /// Whether the receiver requests an interrupt.
    pub receiver_request: bool,
    /// Whether the transmitter requests an interrupt.
    pub transmitter_request: bool,
}

impl<A: Allocator> Unibus<A> {
    /// What the operator is shown of the disk controller, between this turn and the next.
    #[tactic(auto, unfolding(crate::specs::Devices::disk_registers))]
    fn disk_registers(&self, turn: u64) -> DiskRegisters
        ensures { result ≡ disk_registers turn self.now.visible.disk }
    {
        let disk = &self.devices.disk;
        DiskRegisters {
            drive_status: disk.read(turn, DiskRegister::DriveStatus),
            error: disk.read(turn, DiskRegister::Error),
            control_status: disk.read(turn, DiskRegister::ControlStatus),
            word_count: disk.read(turn, DiskRegister::WordCount),
            bus_address: disk.read(turn, DiskRegister::BusAddress),
            disk_address: disk.read(turn, DiskRegister::DiskAddress),
            transfer_due: disk.transfer_due(),
        }
    }

    /// What the operator is shown of a drive.
    fn drive_shown(&self, n: usize) -> Option<DriveShown>
        requires { n < drive_count }
        ensures { result ≡ option_map drive_shown (drive_of self.now.visible.disk n) }
    {
        let disk = &self.devices.disk;
        match disk.drive(n) {
            Some(drive) => {
                let heads = disk.heads(n);
                Some(DriveShown {
                    protected: drive.protected(),
                    cylinder: heads.cylinder,
                    changed: drive.changed().len() as u32,
                    due: heads.due,
                })
            }
            None => None,
        }
    }

    /// What the operator is shown of the drives, by number.
    #[tactic(auto, unfolding(crate::specs::Devices::drives_shown))]
    fn drives_shown(&self) -> [Option<DriveShown>; DRIVES]
        ensures { result ≡ drives_shown self.now.visible.disk }
    {
        [
            self.drive_shown(0),
            self.drive_shown(1),
            self.drive_shown(2),
            self.drive_shown(3),
            self.drive_shown(4),
            self.drive_shown(5),
            self.drive_shown(6),
            self.drive_shown(7),
        ]
    }

    /// What the operator is shown of the devices, between this turn and the next. It has no effect.
    #[tactic(auto, unfolding(crate::specs::Devices::devices_of, crate::specs::Calls::Due::due_of))]
    pub fn devices(&self, turn: u64) -> BusDevices
        requires { turn ≤ 2 ^ 62 }
        ensures { result ≡ devices_of turn self.now.visible }
    {
        let due = self.due(turn);
        let devices = &*self.devices;
        BusDevices {
            clock: devices.clock.read(),
            clock_period: devices.clock.period(),
            clock_due: due.clock,
            receiver_status: devices.line.peek(LineRegister::ReceiverStatus),
            receiver_buffer: devices.line.peek(LineRegister::ReceiverBuffer),
            transmitter_status: devices.line.peek(LineRegister::TransmitterStatus),
            keys: 64 - devices.line.room(),
            receiver_due: due.receiver,
            transmitter_due: due.transmitter,
            disk: self.disk_registers(turn),
            drives: self.drives_shown(),
            clock_request: devices.clock.request(),
            disk_request: devices.disk.request(),
            receiver_request: devices.line.request(Section::Receiver),
            transmitter_request: devices.line.request(Section::Transmitter),
        }
    }
}
