//! Where the file of a stored log is, and whether it is still there. No clause says anything of it.
use std::fs;
use std::io::{self, ErrorKind};
use std::os::unix::fs::MetadataExt;
use std::rt::HostRuntime;

/// The path of a file that was opened, and which file that was.
#[derive(Drop)]
pub(crate) struct Place {
    rt: HostRuntime,
    path: String,
    device: u64,
    inode: u64,
}

impl Place {
    /// The file that is at the path.
    pub(crate) fn of(rt: &HostRuntime, path: &str) -> io::Result<Place> {
        let found = fs::metadata(rt, path)?;
        Ok(Place {
            rt: *rt,
            path: String::from_str(rt.alloc(), path)?,
            device: found.dev(),
            inode: found.ino(),
        })
    }

    pub(crate) fn rt(&self) -> &HostRuntime {
        &self.rt
    }

    pub(crate) fn path(&self) -> &str {
        self.path.as_str()
    }

    /// Whether the file is still at its path, under no other name. An error of the system that
    /// doesn't say so counts as if it were.
    pub(crate) fn has_file(&self) -> bool {
        match fs::metadata(&self.rt, self.path.as_str()) {
            Ok(found) => found.dev() == self.device
                && found.ino() == self.inode
                && found.nlink() == 1,
            Err(error) => !matches!(error.kind(), ErrorKind::NotFound | ErrorKind::NotADirectory),
        }
    }
}
