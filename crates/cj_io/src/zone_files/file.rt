ghost use Rattle.std.specs.Prelude.{◌≡◌};

use cj_base::Text;
use std::marker::Model;

/// The bytes of a file, which contracts see as their list.
#[derive(Debug, Drop)]
pub struct FileBytes {
    inner: Vec<u8>,
}

impl Model for FileBytes {
    ghost use Rattle.std.specs.Prelude.{ℕ, List};

    ghost Value = { List ℕ };

    ghost view = { λ b. b.inner.items };
}

impl FileBytes {
    /// These bytes, which it takes over.
    pub fn from_vec(inner: Vec<u8>) -> FileBytes
        ensures { result ≡ inner.items }
    {
        FileBytes { inner }
    }

    /// The bytes in their order.
    pub fn as_slice(&self) -> &[u8]
        ensures { result.now ≡ self.now }
    {
        self.inner.as_slice()
    }
}

/// A compiled zone file (RFC 8536), as it was read, by the name of its zone.
#[derive(Debug, Drop)]
pub struct ZoneFile {
    pub name: Text,
    pub bytes: FileBytes,
}
