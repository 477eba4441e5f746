//! The packs on the drives.
ghost use Rattle.std.specs.Prelude.{◌≡◌, ◌<◌, ◌≤◌, [], false, true, is_some, length, option_copied, slice_set, OnOk, OnErr};
ghost use Rattle.p11_rk11.specs.State.{contents_of, drive_count, drive_of, is_busy};
ghost use Rattle.p11_rk11.specs.Kept.View.{contents_lent};
ghost use Rattle.p11_cpu.specs.OperatorDevices.{mount_of, unmount_of};
ghost use Rattle.p11_overlay.specs.Geometry.{image_bytes};

use crate::machine::Machine;
use p11_overlay::Drive;
use std::alloc::{AllocError, Allocator};

impl<A: Allocator + Copy> Machine<A> {
    /// Mounts a pack that holds an image, and zeros behind it, on an empty drive. The only error is want of memory, and
    /// nothing changes then. For this drive no sector is prepared afterwards.
    #[tactic(auto, unfolding(crate::specs::OperatorDevices::mount_of), using(crate::proofs::Agreeing::still_agrees, crate::proofs::Readying::drive_changed))]
    pub fn mount(
        &mut self,
        alloc: A,
        n: usize,
        image: &[u8],
        protected: bool,
    ) -> Result<(), AllocError>
        requires exists { n < drive_count }
        requires empty { is_some (drive_of self.old.visible.bus.disk n) ≡ false }
        requires fits { length image.now ≤ image_bytes }
        ensures ok { OnOk result (self.new.visible ≡ mount_of n image.now protected self.old.visible) }
        ensures prepared { OnOk result (self.new.prepared
            ≡ record self.old.prepared { sectors = slice_set self.old.prepared.sectors n [] }) }
        ensures err { OnErr result (self.new ≡ self.old) }
    {
        let drive = Drive::mount(alloc, image, protected)?;
        self.hardware.quiet_until = 0;
        self.hardware.bus.unibus.mount(n, drive);
        Ok(())
    }
}

impl<A: Allocator> Machine<A> {
    /// Takes the pack off a drive and drops it, with the sectors that were prepared.
    #[tactic(auto, unfolding(crate::specs::OperatorDevices::unmount_of), using(crate::proofs::Agreeing::still_agrees, crate::proofs::Readying::drive_changed))]
    pub fn unmount(&mut self, n: usize)
        requires exists { n < drive_count }
        requires mounted { is_some (drive_of self.old.visible.bus.disk n) ≡ true }
        requires idle { is_busy n self.old.visible.bus.disk ≡ false }
        ensures state { self.new.visible ≡ unmount_of n self.old.visible }
        ensures prepared { self.new.prepared
            ≡ record self.old.prepared { sectors = slice_set self.old.prepared.sectors n [] } }
    {
        self.hardware.quiet_until = 0;
        self.hardware.bus.unibus.unmount(n);
    }

    /// Whether a drive seeks or has the running transfer on it.
    pub fn busy(&self, n: usize) -> bool
        ensures { result ≡ is_busy n self.now.visible.bus.disk }
    {
        self.hardware.bus.unibus.busy(n)
    }

    /// The pack of a drive, if one is mounted.
    pub fn drive(&self, n: usize) -> Option<&Drive<A>>
        ensures contents { contents_lent (option_copied result) ≡ contents_of (drive_of self.now.visible.bus.disk n) }
        ensures mounted { is_some result ≡ is_some (drive_of self.now.visible.bus.disk n) }
    {
        self.hardware.bus.unibus.drive(n)
    }
}
