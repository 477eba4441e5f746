// What a crash leaves of a save.
ghost use Rattle.std.specs.Prelude.{ℕ, List};
ghost use Rattle.p11_files.specs.Disks.{DiskCall, FailsToFill, Fills};
ghost use Rattle.p11_files.specs.Crashes.{KeepsOldOrNew, empty};
ghost use Rattle.p11_files.specs.declared.file_fault.FileFault.{FileFault};

/// A law of what saves ask of a disk: a crash before the first of these calls, or after any of them, leaves under the path the
/// bytes that it had, or the new ones.
pub fn keeps_old_or_new()
    ensures filled { (new : List ℕ) → (path : List ℕ) → (bytes : List ℕ) → (calls : List DiskCall)
        → Fills new path bytes calls → KeepsOldOrNew bytes empty calls }
    ensures failed { (new : List ℕ) → (path : List ℕ) → (bytes : List ℕ) → (fault : FileFault) → (calls : List DiskCall)
        → FailsToFill new path bytes fault calls → KeepsOldOrNew bytes empty calls }
{}
