ghost use Rattle.std.specs.Prelude.{◌≡◌, ◌+◌, ◌-◌, ◌^◌, ◌<◌, min, take, drop, ◌++◌, length, [], true, false, OnOk, OnErr};
ghost use Rattle.disk_model.specs.Files.{nothing, now_of, kept_of, burnt_of, wrote, resized, removed, forgotten, synced, lost};
ghost use Rattle.disk_model.specs.Plan.{damaged};
ghost use Rattle.disk_model.specs.Calls.{Reads};

use crate::contents::Contents;
use std::alloc::{AllocError, Global};
use std::marker::Model;

/// A file of a disk in memory: listed, or removed since the last sync.
///
/// What stood in it when it was first removed since then is kept until the next sync, since it may
/// come back.
#[derive(Drop)]
pub(crate) struct MemFile {
    alloc: Global,
    listed: bool,
    contents: Contents,
    gone: Option<Contents>,
}

impl Model for MemFile {
    ghost use Rattle.disk_model.specs.Files.{FileState};
    ghost use Rattle.disk_model.specs.Held.{file_of, IsFile};

    ghost Value = { FileState };

    ghost view = { λ f. file_of f.listed f.contents f.gone };

    ghost invariant = { λ f. IsFile f.listed f.contents f.gone };
}

impl MemFile {
    /// A file of which the disk has nothing, which takes no memory.
    pub(crate) fn new(alloc: Global) -> MemFile
        ensures { result ≡ nothing }
    {
        MemFile {
            alloc,
            listed: false,
            contents: Contents::new(alloc),
            gone: None,
        }
    }

    /// Whether the file is listed.
    pub(crate) fn is_listed(&self) -> bool
        ensures { result ≡ self.now.listed }
    {
        self.listed
    }

    /// How many bytes a read gives.
    pub(crate) fn size(&self) -> usize
        ensures { result ≡ length (now_of self.now) }
    {
        self.contents.bytes().len()
    }

    /// Reads from a place on, as far as the file and `into` reach, and says how many bytes.
    pub(crate) fn read(&self, at: usize, into: &mut [u8]) -> usize
        ensures { Reads (now_of self.now) at result into.old into.new }
    {
        let bytes = self.contents.bytes();
        let rest = &bytes[at.min(bytes.len())..];
        let count = into.len().min(rest.len());
        into[..count].copy_from_slice(&rest[..count]);
        count
    }

    /// Writes bytes at a place. An error changes nothing.
    pub(crate) fn write(&mut self, at: usize, bytes: &[u8]) -> Result<(), AllocError>
        requires { at + length bytes.now < 2 ^ 64 }
        ensures ok { OnOk result (self.new ≡ wrote at bytes.now self.old) }
        ensures err { OnErr result (self.new ≡ self.old) }
    {
        self.contents.write(at, bytes)?;
        self.listed = true;
        Ok(())
    }

    /// Makes the file this long. An error changes nothing.
    pub(crate) fn cut(&mut self, size: usize) -> Result<(), AllocError>
        ensures ok { OnOk result (self.new ≡ resized size self.old) }
        ensures err { OnErr result (self.new ≡ self.old) }
    {
        self.contents.cut(size)?;
        self.listed = true;
        Ok(())
    }

    /// Removes the file. What stood in it may come back.
    pub(crate) fn remove(&mut self)
        ensures { self.new ≡ removed self.old }
    {
        let contents = std::mem::replace(&mut self.contents, Contents::new(self.alloc));
        self.listed = false;
        if self.gone.is_none() {
            self.gone = Some(contents);
        }
    }

    /// Makes sure of a removal.
    pub(crate) fn forget(&mut self)
        ensures { self.new ≡ forgotten self.old }
    {
        self.gone = None;
    }

    /// Makes sure of what stands in a listed file, each removal being sure.
    pub(crate) fn sync(&mut self)
        requires listed { self.old.listed ≡ true }
        requires gone { self.old.gone ≡ false }
        ensures { self.new ≡ synced self.old }
    {
        self.contents.settle();
    }

    /// Loses the power: what the last sync left stays under choice 0, what a read gives under
    /// choice 1, and that with 255 for each byte written since under each other choice.
    pub(crate) fn lose(&mut self, choice: u8)
        ensures { self.new ≡ lost choice self.old }
    {
        let gone = self.gone.take();
        match choice {
            0 => {
                if let Some(gone) = gone {
                    self.contents = gone;
                }
                self.contents.fall_back();
                self.listed = true;
            }
            1 => self.contents.settle(),
            _ => self.contents.burn(),
        }
    }

    /// Puts these bytes in place of all that stood in the file, as if they had been synced.
    pub(crate) fn put(&mut self, bytes: Vec<u8>)
        ensures { self.new ≡ damaged bytes.items self.old }
    {
        self.contents = Contents::of(self.alloc, bytes);
        self.gone = None;
        self.listed = true;
    }
}
