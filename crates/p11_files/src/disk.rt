// A disk, by the calls that files are read and replaced with.
ghost use Rattle.std.specs.Prelude.{◌≡◌, ◌<◌, [], length, IfOk};
ghost use Rattle.std.specs.Io.{ReadsAtMost, WritesAtMost};
ghost use Rattle.p11_files.specs.Disks.{DiskState, after, call_on, clearing, creating, locating, reading, writing};

use crate::file_fault::FileFault;
use std::fs::Metadata;

/// What a disk is asked.
#[derive(Clone, Copy, Drop)]
pub enum Act {
    /// What is at a path.
    Look,
    /// Where the links of a name lead.
    Locate,
    /// The path without links of what a path leads to.
    Whole,
    /// To open a file that is read.
    Open,
    /// To read the open file.
    Read,
    /// To make a new file, which is open then.
    Create,
    /// The same, where something has its path already.
    Miss,
    /// To write to the new file.
    Write,
    /// To bring to the disk what the new file took.
    Sync,
    /// To give a file another path, in place of what had it.
    Rename,
    /// To bring the entry of a path in its folder to the disk.
    Settle,
    /// To take a path away.
    Remove,
}

/// Where the links of a name lead.
#[derive(Drop)]
pub struct Found {
    /// The path of its folder, with a slash behind it where it has one.
    pub folder: String,
    /// The name in it.
    pub last: String,
    /// What is there already.
    pub old: Option<Metadata>,
}

/// A disk. Contracts know of it what it was asked, and how each call ended.
pub trait Disk {
    ghost state: { Self → DiskState };

    /// The number of this process, which no other one has.
    fn process(&self) -> u32;

    /// Follows the links at the end of a name, also to a file that isn't there yet.
    fn locate(&mut self, name: &str) -> Result<Found, FileFault>
        ensures { state self.new ≡ after (state self.old) (locating name.now result) };

    /// The path without links of what a path leads to.
    fn whole(&mut self, path: &str) -> Result<String, FileFault>
        ensures { state self.new ≡ after (state self.old) (clearing path.now result) };

    /// The path without links of a folder, with a slash behind it.
    fn whole_folder(&mut self, path: &str) -> Result<String, FileFault>
        ensures { state self.new ≡ after (state self.old) (clearing path.now result) };

    /// Whether a path leads to something.
    fn is_there(&mut self, path: &str) -> Result<bool, FileFault>
        ensures { state self.new ≡ after (state self.old) (call_on Act.Look path.now [] result) };

    /// Sees that a file may be written.
    fn may_write(&mut self, path: &str) -> Result<(), FileFault>
        ensures { state self.new ≡ after (state self.old) (call_on Act.Look path.now [] result) };

    /// Opens a file to be read; one whose bytes come later, or have no end, only if it is to be waited for.
    fn open(&mut self, path: &str, waits: bool) -> Result<(), FileFault>
        ensures { state self.new ≡ after (state self.old) (call_on Act.Open path.now [] result) };

    /// Gives the next bytes of the open file: how many they are, none at its end.
    fn read(&mut self, bytes: &mut [u8]) -> Result<usize, FileFault>
        ensures bound { ReadsAtMost result bytes.new }
        ensures calls { state self.new ≡ after (state self.old) (reading bytes.new result) };

    /// Takes away the new files that no process writes any more, of the folder of a path.
    fn clear(&mut self, path: &str)
        ensures { state self.new ≡ state self.old };

    /// Makes a new file, which is open then, unless something has its path: whether it is made.
    fn create_new(&mut self, path: &str, mode: u32) -> Result<bool, FileFault>
        ensures { state self.new ≡ after (state self.old) (creating path.now result) };

    /// Takes a front of some bytes, not none of them: how many they are.
    fn write(&mut self, bytes: &[u8]) -> Result<usize, FileFault>
        requires { 0 < length bytes.now }
        ensures bound { WritesAtMost result bytes.now }
        ensures some { IfOk result (λ count. 0 < count) }
        ensures calls { state self.new ≡ after (state self.old) (writing bytes.now result) };

    /// Brings to the disk what the new file took, with the rights of the file whose place it is to take.
    fn sync(&mut self, old: &Option<Metadata>) -> Result<(), FileFault>
        ensures { state self.new ≡ after (state self.old) (call_on Act.Sync [] [] result) };

    /// Gives the file of a path another one, in place of what had it.
    fn rename(&mut self, from: &str, to: &str) -> Result<(), FileFault>
        ensures { state self.new ≡ after (state self.old) (call_on Act.Rename from.now to.now result) };

    /// Brings the entry of a path in its folder to the disk.
    fn settle(&mut self, path: &str) -> Result<(), FileFault>
        ensures { state self.new ≡ after (state self.old) (call_on Act.Settle path.now [] result) };

    /// Takes a path away.
    fn remove(&mut self, path: &str) -> Result<(), FileFault>
        ensures { state self.new ≡ after (state self.old) (call_on Act.Remove path.now [] result) };

    /// Closes the open file.
    fn close(&mut self)
        ensures { state self.new ≡ state self.old };
}
