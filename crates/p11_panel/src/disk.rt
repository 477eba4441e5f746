// The commands on the drives.
ghost use Rattle.std.specs.Prelude.{◌≡◌, ◌<◌, ◌≤◌, false, length, is_some, IfOk, IfErr, IfNone};
ghost use Rattle.p11_overlay.specs.Geometry.{image_bytes};
ghost use Rattle.p11_rk11.specs.State.{drive_count, drive_of};
ghost use Rattle.p11_panel.specs.Commands.{CommandStep};
ghost use Rattle.p11_panel.specs.Disks.{mount_fault};

use crate::command::Command;
use crate::panel::Panel;
use p11_lines::{Answer, Bytes, Fault, Words};
use p11_overlay::IMAGE_BYTES;
use p11_rk11::DRIVES;
use std::alloc::Allocator;

impl<A: Allocator + Copy> Panel<A> {
    /// Why MOUNT is refused, if it is.
    #[tactic(auto, unfolding(crate::specs::Disks::mount_fault))]
    fn mount_refusal(&self, drive: u32, image: &[u8]) -> Option<Fault>
        ensures fault { result ≡ mount_fault drive image.now self.now }
        ensures exists { IfNone result (drive < drive_count) }
        ensures empty { IfNone result (is_some (drive_of self.now.bus.disk drive) ≡ false) }
        ensures fits { IfNone result (length image.now ≤ image_bytes) }
    {
        if drive as usize >= DRIVES {
            return Some(Fault::NoDrive);
        }
        if self.machine.drive(drive as usize).is_some() {
            return Some(Fault::DriveTaken);
        }
        if image.len() > IMAGE_BYTES {
            return Some(Fault::ImageTooLong);
        }
        None
    }

    /// Does MOUNT: puts a pack that holds these bytes, and zeros behind them, on a drive (0 to 7); or says why not.
    pub(crate) fn mount(&mut self, alloc: A, drive: u32, image: &[u8], protect: bool) -> Answer<A>
        ensures { CommandStep self.old (Command.Mount drive image.now protect) result self.new }
    {
        if let Some(fault) = self.mount_refusal(drive, image) {
            return Answer::Refused(fault);
        }
        match self.machine.mount(alloc, drive as usize, image, protect) {
            Ok(()) => Answer::Done,
            Err(_) => Answer::Refused(Fault::NoMemory),
        }
    }

    /// Does UNMOUNT: takes the pack out of a drive that isn't busy; or says why not.
    pub(crate) fn unmount(&mut self, drive: u32) -> Answer<A>
        ensures { CommandStep self.old (Command.Unmount drive) result self.new }
    {
        if drive as usize >= DRIVES {
            return Answer::Refused(Fault::NoDrive);
        }
        if self.machine.drive(drive as usize).is_none() {
            return Answer::Refused(Fault::DriveEmpty);
        }
        if self.machine.busy(drive as usize) {
            return Answer::Refused(Fault::DriveBusy);
        }
        self.machine.unmount(drive as usize);
        Answer::Done
    }

    /// All that the pack on a drive holds, or why SAVE is refused.
    pub(crate) fn image(&self, alloc: A, drive: u32) -> Result<Bytes<A>, Fault>
        ensures ok { IfOk result (λ image. CommandStep {A = A} self.now (Command.Save drive) (Answer.Image image) self.now) }
        ensures err { IfErr result (λ fault. CommandStep {A = A} self.now (Command.Save drive) (Answer.Refused fault) self.now) }
    {
        if drive as usize >= DRIVES {
            return Err(Fault::NoDrive);
        }
        let Some(pack) = self.machine.drive(drive as usize) else {
            return Err(Fault::DriveEmpty);
        };
        match pack.image(alloc) {
            Ok(image) => Ok(Bytes::from_vec(image)),
            Err(_) => Err(Fault::NoMemory),
        }
    }

    /// Does SAVE: answers all bytes of the pack on a drive; or says why not, for want of memory too.
    pub(crate) fn save(&self, alloc: A, drive: u32) -> Answer<A>
        ensures { CommandStep self.now (Command.Save drive) result self.now }
    {
        match self.image(alloc, drive) {
            Ok(image) => Answer::Image(image),
            Err(fault) => Answer::Refused(fault),
        }
    }

    /// Does CHANGED: answers the numbers of the sectors written since the pack was mounted; or says why not.
    pub(crate) fn changed(&self, alloc: A, drive: u32) -> Answer<A>
        ensures { CommandStep self.now (Command.Changed drive) result self.now }
    {
        if drive as usize >= DRIVES {
            return Answer::Refused(Fault::NoDrive);
        }
        let Some(pack) = self.machine.drive(drive as usize) else {
            return Answer::Refused(Fault::DriveEmpty);
        };
        match Vec::from_slice(alloc, pack.changed()) {
            Ok(sectors) => Answer::Sectors(Words::from_vec(sectors)),
            Err(_) => Answer::Refused(Fault::NoMemory),
        }
    }
}
