//! What a file system says of what is at a path.
use std::fs::Metadata;
use std::io::ErrorKind;
use std::os::unix::fs::MetadataExt;

/// What is at a path.
#[derive(Clone, Copy, Debug, PartialEq, Eq)]
pub enum Kind {
    File,
    Folder,
    Link,
    Other,
}

/// Which file of which file system something is.
#[derive(Clone, Copy, Debug, PartialEq, Eq)]
pub struct Identity {
    pub device: u64,
    pub node: u64,
}

impl Identity {
    /// That of what is said of something.
    pub fn of(metadata: &Metadata) -> Identity {
        Identity {
            device: metadata.dev(),
            node: metadata.ino(),
        }
    }
}

/// When something was changed, in seconds since 1970 and billionths of one.
#[derive(Clone, Copy, Debug, PartialEq, Eq)]
pub struct Time {
    pub seconds: i64,
    pub billionths: i64,
}

/// Who a file belongs to, and who may do what with it.
#[derive(Clone, Copy, Debug, PartialEq, Eq)]
pub struct Rights {
    pub user: u32,
    pub group: u32,
    /// The bits of its mode.
    pub mode: u32,
}

impl Rights {
    /// Those of what is said of something.
    pub fn of(metadata: &Metadata) -> Rights {
        Rights {
            user: metadata.uid(),
            group: metadata.gid(),
            mode: metadata.mode(),
        }
    }
}

/// What is said of what is at a path, or of a file that is open.
#[derive(Clone, Copy, Debug, PartialEq, Eq)]
pub struct Status {
    pub kind: Kind,
    /// In bytes.
    pub length: u64,
    pub identity: Identity,
    pub rights: Rights,
    /// How many paths lead to it.
    pub paths: u64,
    /// When its bytes were changed.
    pub modified: Time,
    /// When its bytes, its rights or its paths were changed.
    pub changed: Time,
}

impl Status {
    /// Whether it is a regular file.
    pub fn is_file(&self) -> bool {
        self.kind == Kind::File
    }

    /// Whether it is a symbolic link.
    pub fn is_link(&self) -> bool {
        self.kind == Kind::Link
    }
}

/// Whether the kind of an error says that nothing has a name.
pub fn is_absent(kind: ErrorKind) -> bool {
    matches!(
        kind,
        ErrorKind::NotFound | ErrorKind::NotADirectory | ErrorKind::InvalidFilename
    )
}
