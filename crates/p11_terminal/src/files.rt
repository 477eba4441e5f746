// The files that lines read and write, and why they can't.
use p11_console::{PutFault, Trouble};
use p11_files::FileStore;
use p11_store::Store;
use std::sync::ledger::Ledger;

/// The name of a file that has the pack of a drive.
#[derive(Drop)]
struct Image {
    drive: u32,
    name: Vec<u8>,
}

/// The files of the system, and those that this dialogue may write over unasked.
#[derive(Drop)]
pub(crate) struct Files<'a, L: Ledger> {
    rt: &'a HostRuntime,
    store: FileStore<'a, L>,
    /// The script with which the dialogue begins. It alone may be a pipe, or outside of the folder of `--files`.
    script: Option<&'a str>,
    images: Vec<Image>,
}

impl<'a, L: Ledger> Files<'a, L> {
    pub(crate) fn new(
        rt: &'a HostRuntime,
        store: FileStore<'a, L>,
        script: Option<&'a str>,
    ) -> Self {
        Files {
            rt,
            store,
            script,
            images: Vec::new(rt.alloc()),
        }
    }

    /// The bytes under a name.
    pub(crate) fn fetch(&mut self, name: &[u8], is_pack: bool) -> Result<Vec<u8>, Trouble> {
        let takes_any = !is_pack && self.is_script(name);
        self.store.take_any(takes_any);
        match self.store.fetch(self.rt.alloc(), name) {
            Ok(bytes) => Ok(bytes),
            Err(error) => Err(Trouble {
                error,
                reason: self.reason(),
            }),
        }
    }

    /// The pack of a drive is that of this file, which a save of the drive may write over from then on.
    pub(crate) fn mounted(&mut self, drive: u32, name: &[u8]) {
        self.images.retain(|image| image.drive != drive);
        self.note(drive, name);
    }

    /// Leaves the pack of a drive under a name; where that isn't agreed not in place of a file that doesn't have it.
    pub(crate) fn put(
        &mut self,
        drive: u32,
        name: &[u8],
        bytes: &[u8],
        may_replace: bool,
    ) -> Result<(), PutFault> {
        if !may_replace && !self.has_pack(drive, name) && self.store.has(name) {
            return Err(PutFault::There);
        }
        match self.store.put(name, bytes) {
            Ok(()) => {
                self.note(drive, name);
                Ok(())
            }
            Err(_) => Err(PutFault::Refused {
                reason: self.reason(),
            }),
        }
    }

    fn is_script(&self, name: &[u8]) -> bool {
        match self.script {
            Some(script) => script.as_bytes() == name,
            None => false,
        }
    }

    /// What the system said of the call that failed last, in few words.
    fn reason(&self) -> &'static str {
        match self.store.fault() {
            Some(fault) => fault.text(),
            None => "",
        }
    }

    /// Notes the name of a file that has the pack of a drive, and no other drive's any more. Without memory it stays unknown.
    fn note(&mut self, drive: u32, name: &[u8]) {
        self.images.retain(|image| image.name.as_slice() != name);
        if let Ok(name) = Vec::from_slice(self.rt.alloc(), name) {
            let _ = self.images.push(Image { drive, name });
        }
    }

    /// Whether the pack of a drive is in the file of this name.
    fn has_pack(&self, drive: u32, name: &[u8]) -> bool {
        self.images.iter().any(|image| image.drive == drive && image.name.as_slice() == name)
    }
}
