//! Paths as bytes with slashes: the folder of a path.
ghost use Rattle.std.specs.Prelude.{◌≡◌, ◌≤◌, length, take};
ghost use Rattle.gix_ref_files.specs.Disk.{folder_of};
ghost use Rattle.gix_ref_files.specs.Lock.{folders_up_to};
ghost use Rattle.gix_ref_files.specs.Tree.{fronts};

/// Where the folder of a path ends: at its last slash, unless that is its first byte; 0 if it has no such slash.
pub fn folder_end(path: &[u8]) -> usize
    ensures within { result ≤ length path.now }
    ensures folder { take result path.now ≡ folder_of path.now }
    ensures folders { fronts path.now ≡ folders_up_to path.now result }
{
    let mut end = path.len();
    while end > 1 {
        end -= 1;
        if path[end] == b'/' {
            return end;
        }
    }
    0
}

/// The folder of a path: what is before its last slash, unless that is its first byte. As `Path::parent`.
pub fn folder(path: &[u8]) -> &[u8]
    ensures { result.now ≡ folder_of path.now }
{
    &path[..folder_end(path)]
}
