// The files of a command: on the disk or in memory, where calls may fail or give few bytes, and
// where a file may end before its size. They have one type, since a program contains the certifier
// once for each type of files.
ghost use Rattle.std.specs.Prelude.{None};
ghost use Rattle.command_tests.specs.declared.source.Source.TheVariants.{Disk, Memory};

use crate::trial::Held;
use crpd_io::{DiskFiles, Fault, Files, Log, MemFiles, Told};
use std::alloc::{AllocError, Global};

/// Files whose contents contracts do not see.
#[derive(Drop)]
pub(crate) enum Source<'a> {
    /// The files in the folder where this program runs.
    Disk(DiskFiles<'a, HostRuntime>),
    /// Files in memory, where the reads of one name end at a place, whatever its reported size.
    Memory {
        files: MemFiles,
        name: &'a str,
        end: u64,
        log: Log,
    },
}

impl<'a> Source<'a> {
    /// The files in the folder where this program runs.
    pub(crate) fn disk(rt: &'a HostRuntime) -> Self {
        Source::Disk(DiskFiles::new(rt))
    }

    /// The reads of this name end at a place.
    pub(crate) fn ending(alloc: Global, files: Held, name: &'a str, end: u64) -> Self {
        Source::Memory {
            files: MemFiles::new(files, Vec::new(alloc)),
            name,
            end,
            log: Log::new(),
        }
    }

    /// All files are whole, but the call with this number fails, and a call gives at most `most`
    /// bytes, and at least one.
    pub(crate) fn failing(
        alloc: Global,
        files: Held,
        most: usize,
        call: u64,
    ) -> Result<Self, AllocError> {
        let failing = vec![in alloc; call]?;
        Ok(Source::Memory {
            files: MemFiles::with_most(files, failing, most.max(1)),
            name: "",
            end: u64::MAX,
            log: Log::new(),
        })
    }
}

impl Files for Source<'_> {
    ghost contents = { λ _. None };

    ghost faults = { elim [ Disk files ↦ files.faults | Memory files _ _ _ ↦ files.faults ] };

    ghost said = { elim [ Disk files ↦ files.said | Memory files _ _ _ ↦ files.said ] };

    ghost log = { elim [ Disk files ↦ files.log.answers | Memory _ _ _ log ↦ log.answers ] };

    fn size(&mut self, name: &str) -> Result<Option<u64>, Fault> {
        match self {
            Source::Disk(files) => files.size(name),
            Source::Memory { files, log, .. } => {
                let size = files.size(name);
                *log = match size {
                    Ok(size) => log.then(&Told::Size(name, size)),
                    Err(_) => log.then(&Told::NoSize(name)),
                };
                size
            }
        }
    }

    fn read(&mut self, name: &str, place: u64, into: &mut [u8]) -> Result<usize, Fault> {
        match self {
            Source::Disk(files) => files.read(name, place, into),
            Source::Memory {
                files,
                name: ending,
                end,
                log,
            } => {
                let left = if name == *ending {
                    end.saturating_sub(place)
                } else {
                    u64::MAX
                };
                let most = into.len().min(left as usize);
                match files.read(name, place, &mut into[..most]) {
                    Ok(n) => {
                        *log = log.then(&Told::Bytes(name, place, into.len(), &into[..n]));
                        Ok(n)
                    }
                    Err(fault) => {
                        *log = log.then(&Told::NoBytes(name));
                        Err(fault)
                    }
                }
            }
        }
    }
}
