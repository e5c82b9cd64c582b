//! A runtime whose standard output and standard error are files, so that a test can look at them.

use std::alloc::Allocator;
use std::fmt::Display;
use std::fs::{Metadata, OpenOptions};
use std::io;
use std::io::Write;
use std::rt::Files;

/// The files of a runtime, and for standard output and standard error the files of these names.
#[derive(Drop)]
pub(crate) struct Outside<'r, R: Files> {
    pub(crate) files: &'r R,
    pub(crate) output: &'static str,
    pub(crate) errors: &'static str,
}

impl<R: Files> Outside<'_, R> {
    /// Appends the bytes to the file of this name.
    fn append(&self, name: &str, bytes: &[u8]) -> io::Result<()> {
        let mut options = OpenOptions::new();
        options.append(true).create(true);
        let mut file = options.open(self.files, name)?;
        file.write_all(bytes)
    }

    /// Appends what is printed of the value, and this behind it.
    fn append_value<D: Display + Drop>(&self, name: &str, value: D, end: &str) -> io::Result<()> {
        let mut options = OpenOptions::new();
        options.append(true).create(true);
        let mut file = options.open(self.files, name)?;
        write!(file, "{value}{end}")
    }
}

impl<R: Files> Print for Outside<'_, R> {
    fn print<D: Display + Drop>(&self, value: D) -> io::Result<()> {
        self.append_value(self.output, value, "")
    }

    fn println<D: Display + Drop>(&self, value: D) -> io::Result<()> {
        self.append_value(self.output, value, "\n")
    }

    fn write_all(&self, bytes: &[u8]) -> io::Result<()> {
        self.append(self.output, bytes)
    }
}

impl<R: Files> Eprint for Outside<'_, R> {
    fn eprint<D: Display + Drop>(&self, value: D) -> io::Result<()> {
        self.append_value(self.errors, value, "")
    }

    fn eprintln<D: Display + Drop>(&self, value: D) -> io::Result<()> {
        self.append_value(self.errors, value, "\n")
    }
}

impl<R: Files> Files for Outside<'_, R> {
    type File = R::File;

    type Dir = R::Dir;

    fn open_file(&self, how: &OpenOptions, path: &str) -> io::Result<R::File> {
        self.files.open_file(how, path)
    }

    fn open_dir(&self, path: &str) -> io::Result<R::Dir> {
        self.files.open_dir(path)
    }

    fn metadata(&self, path: &str) -> io::Result<Metadata> {
        self.files.metadata(path)
    }

    fn symlink_metadata(&self, path: &str) -> io::Result<Metadata> {
        self.files.symlink_metadata(path)
    }

    fn copy(&self, from: &str, to: &str) -> io::Result<u64> {
        self.files.copy(from, to)
    }

    fn rename(&self, from: &str, to: &str) -> io::Result<()> {
        self.files.rename(from, to)
    }

    fn remove_file(&self, path: &str) -> io::Result<()> {
        self.files.remove_file(path)
    }

    fn create_dir(&self, path: &str) -> io::Result<()> {
        self.files.create_dir(path)
    }

    fn remove_dir(&self, path: &str) -> io::Result<()> {
        self.files.remove_dir(path)
    }

    fn remove_dir_all<B: Allocator>(&self, alloc: B, path: &str) -> io::Result<()> {
        self.files.remove_dir_all(alloc, path)
    }
}
