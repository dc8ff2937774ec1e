//! Counts of faults: how many there were, and how many of each kind.
ghost use Rattle.std.specs.Prelude.{◌≡◌, ◌<◌, ℕ};
ghost use Rattle.gix_ref_files.specs.Files.{no_faults, counted, number_of};
ghost use Rattle.gix_ref_files.specs.Kinds.{number_of_kind};
ghost use Rattle.gix_ref_files.specs.FaultCounts.{counts_of};
ghost use Rattle.gix_ref_files.specs.declared.files.FileError.{FileError as AFault};
ghost use Rattle.gix_ref_files.specs.declared.files.FileError.TheVariants.{Device, NotUtf8};

use std::io::ErrorKind;

/// How many faults were counted, and how many of each kind: those of a device by their `ErrorKind`, then `NotUtf8`. Each count stays at
/// its greatest value.
#[derive(Clone, Copy, Debug)]
pub struct Faults {
    total: u64,
    each: [u64; 43],
}

/// The number of a kind, by its place in the list of kinds.
fn number(kind: ErrorKind) -> usize
    ensures number { result ≡ number_of_kind kind }
    ensures small { result < 42 }
{
    match kind {
        ErrorKind::NotFound => 0,
        ErrorKind::PermissionDenied => 1,
        ErrorKind::ConnectionRefused => 2,
        ErrorKind::ConnectionReset => 3,
        ErrorKind::HostUnreachable => 4,
        ErrorKind::NetworkUnreachable => 5,
        ErrorKind::ConnectionAborted => 6,
        ErrorKind::NotConnected => 7,
        ErrorKind::AddrInUse => 8,
        ErrorKind::AddrNotAvailable => 9,
        ErrorKind::NetworkDown => 10,
        ErrorKind::BrokenPipe => 11,
        ErrorKind::AlreadyExists => 12,
        ErrorKind::WouldBlock => 13,
        ErrorKind::NotADirectory => 14,
        ErrorKind::IsADirectory => 15,
        ErrorKind::DirectoryNotEmpty => 16,
        ErrorKind::ReadOnlyFilesystem => 17,
        ErrorKind::FilesystemLoop => 18,
        ErrorKind::StaleNetworkFileHandle => 19,
        ErrorKind::InvalidInput => 20,
        ErrorKind::InvalidData => 21,
        ErrorKind::TimedOut => 22,
        ErrorKind::WriteZero => 23,
        ErrorKind::StorageFull => 24,
        ErrorKind::NotSeekable => 25,
        ErrorKind::QuotaExceeded => 26,
        ErrorKind::FileTooLarge => 27,
        ErrorKind::ResourceBusy => 28,
        ErrorKind::ExecutableFileBusy => 29,
        ErrorKind::Deadlock => 30,
        ErrorKind::CrossesDevices => 31,
        ErrorKind::TooManyLinks => 32,
        ErrorKind::InvalidFilename => 33,
        ErrorKind::ArgumentListTooLong => 34,
        ErrorKind::Interrupted => 35,
        ErrorKind::Unsupported => 36,
        ErrorKind::UnexpectedEof => 37,
        ErrorKind::OutOfMemory => 38,
        ErrorKind::InProgress => 39,
        ErrorKind::Other => 40,
        ErrorKind::Uncategorized => 41,
    }
}

impl Faults {
    /// No fault yet.
    pub fn new() -> Self
        ensures { counts_of result ≡ no_faults }
    {
        Faults {
            total: 0,
            each: [0; 43],
        }
    }

    /// Counts the fault with a number.
    fn add(&mut self, number: usize)
        requires { number < 43 }
        ensures { (fault : AFault) → number_of fault ≡ number →
            counts_of self.new ≡ counted fault (counts_of self.old) }
    {
        self.total = self.total.saturating_add(1);
        self.each[number] = self.each[number].saturating_add(1);
    }

    /// Counts a fault of the device.
    pub fn add_device(&mut self, kind: ErrorKind)
        ensures { counts_of self.new ≡ counted (Device kind) (counts_of self.old) }
    {
        self.add(number(kind));
    }

    /// Counts a path that is not UTF-8.
    pub fn add_not_utf8(&mut self)
        ensures { counts_of self.new ≡ counted NotUtf8 (counts_of self.old) }
    {
        self.add(42);
    }
}
