// A text that is said: bytes for which there is no memory are left out.
use itoa::Buffer as Digits;
use std::alloc::Allocator;

/// A text that is said. Contracts don't see it.
#[derive(Drop)]
pub struct Text<A: Allocator> {
    bytes: Vec<u8, A>,
}

impl<A: Allocator> Text<A> {
    /// None.
    pub fn new(alloc: A) -> Self {
        Text {
            bytes: Vec::new(alloc),
        }
    }

    /// Bytes more.
    pub fn add(&mut self, bytes: &[u8]) {
        let _ = self.bytes.extend_from_slice(bytes);
    }

    /// A number more, in decimal.
    pub fn add_number(&mut self, number: u64) {
        let mut digits = Digits::new();
        self.add(digits.format(number).as_bytes());
    }

    /// Bytes more, of which those that are no graphic character or space are shown as `?`.
    pub(crate) fn add_clean(&mut self, bytes: &[u8]) {
        for byte in bytes {
            let is_shown = b' ' <= *byte && *byte <= b'~';
            self.add(&[if is_shown { *byte } else { b'?' }]);
        }
    }

    /// A word more in quotation marks.
    pub(crate) fn add_quoted(&mut self, word: &[u8]) {
        self.add(b"\"");
        self.add_clean(word);
        self.add(b"\"");
    }

    pub fn as_slice(&self) -> &[u8] {
        self.bytes.as_slice()
    }

    /// Its bytes.
    pub fn into_vec(self) -> Vec<u8, A> {
        let Text { bytes } = self;
        bytes
    }
}
