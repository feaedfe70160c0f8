//! The outputs of a process: its standard output, and files. A file is written anew beside the one that it is to replace, and takes
//! its place by a new name when it is whole: so a full disk, or the end of the process, leaves the old one as it was. Only what is
//! no file, as a pipe or a device, is written in its place. What takes the bytes notes in a [`Space`] that a write found no space left.
ghost use Rattle.std.specs.Prelude.{◌≡◌, None, Some, false, option_map, IfOk, IfErr};
ghost use Rattle.std.specs.String.{string_bytes};
ghost use Rattle.std.specs.Io.{WritesAtMost};
ghost use Rattle.mpw_firm_outputs.specs.Outputs.{IsUnput, Puts};

use crate::outputs::{Draft, Outputs, Place};
use crate::spot::FileSpot;
use crate::texts::Writer;
use mpw_devices::{Counted, Sink};
use mpw_firm_messages::{FirmFault, is_full, output_fault, unwritten_by};
use std::alloc::{AllocError, Global};
use std::cell::Cell;
use std::fs::{self, File, Metadata, OpenOptions};
use std::io::{self, BufWriter, ErrorKind, Write};
use std::os::unix::fs::MetadataExt;
use std::path::Path;
use std::process;
use std::rt::Stdout;

/// Whether the last text found no space left.
#[derive(Drop)]
pub struct Space {
    is_full: Cell<bool>,
}

impl Space {
    /// Space that no text was written to.
    pub fn new() -> Space {
        Space {
            is_full: Cell::new(false),
        }
    }

    /// The outcome of a write, noted if it found no space left.
    fn noted<T: Drop>(&self, outcome: io::Result<T>) -> io::Result<T>
        ensures { result ≡ outcome }
    {
        if let Err(error) = &outcome {
            if is_full(error.kind()) {
                self.is_full.set(true);
            }
        }
        outcome
    }
}

/// The outputs of a process.
#[derive(Clone, Copy, Drop)]
pub struct Host<'a> {
    rt: &'a HostRuntime,
    space: &'a Space,
}

/// What takes the bytes of a text.
#[derive(Drop)]
enum Target {
    /// The standard output.
    Standard(Stdout),
    /// What is no file, as a pipe.
    Open(File),
    /// A new file.
    New(File),
}

impl Target {
    /// Writes bytes.
    fn put(&mut self, bytes: &[u8]) -> io::Result<usize>
        ensures { WritesAtMost result bytes.now }
    {
        match self {
            Target::Standard(output) => output.write(bytes),
            Target::Open(file) | Target::New(file) => file.write(bytes),
        }
    }

    /// Hands on what was written.
    fn hand_on(&mut self) -> io::Result<()> {
        match self {
            Target::Standard(output) => output.flush(),
            Target::Open(file) => file.flush(),
            Target::New(file) => file.sync_all(),
        }
    }
}

/// What takes the bytes of a text, and notes if no space is left.
#[derive(Drop)]
pub struct Device<'a> {
    target: Target,
    space: &'a Space,
}

impl Write for Device<'_> {
    fn write(&mut self, bytes: &[u8]) -> io::Result<usize> {
        let outcome = self.target.put(bytes);
        self.space.noted(outcome)
    }

    fn flush(&mut self) -> io::Result<()> {
        let outcome = self.target.hand_on();
        self.space.noted(outcome)
    }
}

/// The name of a new file, and that of the place that it is for. If it isn't put there it is removed.
struct NewName<'a> {
    rt: &'a HostRuntime,
    new: String,
    place: String,
    is_kept: bool,
}

impl NewName<'_> {
    /// Puts the file into its place.
    fn keep(mut self) -> io::Result<()> {
        fs::rename(self.rt, self.new.as_str(), self.place.as_str())?;
        self.is_kept = true;
        Ok(())
    }
}

impl Drop for NewName<'_> {
    fn drop(self) {
        let NewName {
            rt,
            new,
            place,
            is_kept,
        } = self;
        if !is_kept {
            let _ = fs::remove_file(rt, new.as_str());
        }
        drop(new);
        drop(place);
    }
}

/// What is known of a text's place.
#[derive(Drop)]
pub struct HostName<'a> {
    name: Option<NewName<'a>>,
    /// The file's name as it was given, if it isn't for the standard output.
    file: Option<String>,
}

/// A text that is being written.
type HostDraft<'a> = Draft<Counted<BufWriter<Device<'a>>>, HostName<'a>>;

impl<'a> Host<'a> {
    /// The outputs of this process, which note in this space that none is left.
    pub fn new(rt: &'a HostRuntime, space: &'a Space) -> Host<'a> {
        Host { rt, space }
    }

    /// The draft of a device.
    fn draft_on(
        self,
        target: Target,
        name: Option<NewName<'a>>,
        file: Option<String>,
    ) -> io::Result<HostDraft<'a>>
        ensures { IfOk result (λ draft. draft.name.file ≡ file) }
    {
        let space = self.space;
        space.is_full.set(false);
        let device = Device { target, space };
        let sink = Counted::new(BufWriter::new(self.rt.alloc(), device)?);
        Ok(Draft {
            writer: Writer { sink },
            name: HostName { name, file },
        })
    }

    /// The draft of a new file beside a place.
    fn draft_beside(
        self,
        place: String,
        old: Option<Metadata>,
        file: String,
    ) -> io::Result<HostDraft<'a>>
        ensures { IfOk result (λ draft. draft.name.file ≡ Some file) }
    {
        let new = format!(in self.rt.alloc(); "{place}.{}.new", process::id(self.rt.process()))?;
        let made = File::create_new(self.rt, new.as_str())?;
        let name = NewName {
            rt: self.rt,
            new,
            place,
            is_kept: false,
        };
        if let Some(old) = old {
            made.set_permissions(old.permissions())?;
        }
        self.draft_on(Target::New(made), Some(name), Some(file))
    }

    /// Refuses a symbolic link whose file isn't there: a new file would take the place of the link.
    fn refuse_link(self, file: &str) -> io::Result<()> {
        match fs::symlink_metadata(self.rt, file) {
            Ok(_) => Err(io::Error::new(
                ErrorKind::NotFound,
                "a symbolic link whose file isn't there",
            )),
            Err(_) => Ok(()),
        }
    }

    /// The draft of a text for the file of that name. A file that is there has to be one that may be written.
    fn draft_for(self, file: &str) -> io::Result<HostDraft<'a>>
        ensures { IfOk result (λ draft. option_map string_bytes draft.name.file ≡ Some file.now) }
    {
        let alloc = self.rt.alloc();
        let given = String::from_str(alloc, file)?;
        let found = match fs::metadata(self.rt, file) {
            Ok(found) => found,
            Err(error) if error.kind() == ErrorKind::NotFound => {
                self.refuse_link(file)?;
                return self.draft_beside(String::from_str(alloc, file)?, None, given);
            }
            Err(error) => return Err(error),
        };
        let old = OpenOptions::new().write(true).open(self.rt, file)?;
        if found.is_file() {
            let place = fs::canonicalize(self.rt, file)?.into_string();
            self.draft_beside(place, Some(found), given)
        } else {
            self.draft_on(Target::Open(old), None, Some(given))
        }
    }

    /// Where a file will be that isn't there.
    fn new_spot(self, alloc: Global, name: &str) -> Result<Option<FileSpot>, AllocError> {
        let path = Path::new(name);
        let folder = match path.parent() {
            Some(folder) if !folder.as_str().is_empty() => folder.as_str(),
            _ => ".",
        };
        match (fs::metadata(self.rt, folder), path.file_name()) {
            (Ok(found), Some(own)) => {
                let own = String::from_str(alloc, own)?;
                Ok(Some(FileSpot::new(found.dev(), found.ino(), own)))
            }
            _ => Ok(None),
        }
    }
}

impl<'a> Outputs for Host<'a> {
    type Bytes = Counted<BufWriter<Device<'a>>>;

    type Name = HostName<'a>;

    ghost kept = { λ _. None };

    ghost files = { λ _. None };

    ghost full = { λ _. None };

    ghost place = { λ name. option_map string_bytes name.file };

    fn spot(&self, alloc: Global, name: &str) -> Result<Option<FileSpot>, AllocError> {
        match fs::metadata(self.rt, name) {
            Ok(found) if found.is_file() => {
                Ok(Some(FileSpot::new(found.dev(), found.ino(), String::new(alloc))))
            }
            Err(error) if error.kind() == ErrorKind::NotFound => self.new_spot(alloc, name),
            _ => Ok(None),
        }
    }

    fn begin(&mut self, alloc: Global, to: Place<'_>) -> Result<HostDraft<'a>, FirmFault> {
        match to {
            Place::Standard => match self.draft_on(Target::Standard(self.rt.stdout()), None, None) {
                Ok(draft) => Ok(draft),
                Err(_) => Err(FirmFault::Memory),
            },
            Place::File(file) => match self.draft_for(file) {
                Ok(draft) => Ok(draft),
                Err(error) => Err(unwritten_by(alloc, file, error)),
            },
        }
    }

    fn is_full(&self) -> bool {
        self.space.is_full.get()
    }

    fn keep(&mut self, alloc: Global, draft: HostDraft<'a>) -> Result<(), FirmFault>
        requires whole { ⟦<Counted<BufWriter<Device<'a>>> as Sink>⟧.pending draft.writer.sink ≡ false }
        ensures kept { IfOk result (λ _. Puts None None (option_map string_bytes draft.entry.name.file) (⟦<Counted<BufWriter<Device<'a>>> as Sink>⟧.contents draft.entry.writer.sink)) }
        ensures refused { IfErr result (IsUnput (option_map string_bytes draft.entry.name.file)) }
    {
        let Draft { writer, name } = draft;
        drop(writer);
        let HostName { name, file } = name;
        let kept = match name {
            Some(name) => name.keep(),
            None => Ok(()),
        };
        match (kept, file) {
            (Ok(()), _) => Ok(()),
            (Err(error), Some(file)) => Err(unwritten_by(alloc, file.as_str(), error)),
            (Err(_), None) => Err(output_fault(alloc, self.is_full())),
        }
    }
}
