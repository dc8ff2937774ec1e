//! Names that are devices on Windows, in each folder and with each extension (Windows' "Naming Files, Paths, and
//! Namespaces"): a file of such a name cannot be made there, and a read of it reads the device.
ghost use Rattle.std.specs.Prelude.{◌≡◌};
ghost use Rattle.std.specs.List.{list_any};
ghost use Rattle.std.specs.Str.{str_eq_ignore_ascii_case};
ghost use Rattle.gix_ref_name.specs.DeviceNames.{stem as stem_bytes, is_device, has_device};

use gix_ref_hash::bytes::{cut, split_component};

/// The names of the devices. There is `LPT0`, and no `COM0`.
static DEVICES: [&[u8]; 25] = [
    b"AUX", b"CON", b"NUL", b"PRN", b"CONIN$", b"CONOUT$", b"COM1", b"COM2", b"COM3", b"COM4",
    b"COM5", b"COM6", b"COM7", b"COM8", b"COM9", b"LPT0", b"LPT1", b"LPT2", b"LPT3", b"LPT4",
    b"LPT5", b"LPT6", b"LPT7", b"LPT8", b"LPT9",
];

/// The length of the shortest name of a device.
const SHORTEST: usize = 3;

/// The length of the longest.
const LONGEST: usize = 7;

/// What is before the first dot of a component, or the whole component where it has none.
fn stem(component: &[u8]) -> &[u8]
    ensures { result.now ≡ stem_bytes component.now }
{
    match cut(component, b'.') {
        Some((before, _)) => before,
        None => component,
    }
}

/// Whether two texts are the same except for the case of ASCII letters.
fn is_same_text(a: &[u8], b: &[u8]) -> bool
    ensures { result ≡ str_eq_ignore_ascii_case a.now b.now }
{
    a.eq_ignore_ascii_case(b)
}

/// Whether a text is one of these names, in whatever case its letters are.
fn is_among(text: &[u8], names: &[&[u8]]) -> bool
    ensures { result ≡ list_any (λ name. str_eq_ignore_ascii_case name.now text.now) names.now }
{
    names.iter().any(|name| is_same_text(name, text))
}

/// Whether a component of a path is a device on Windows: `AUX`, `CON`, `NUL`, `PRN`, `CONIN$`, `CONOUT$`, `COM1` to
/// `COM9` or `LPT0` to `LPT9`, in any case and with anything after a dot, as `aux.txt`. As gix-validate's
/// `path::component_is_windows_device`, whose list may differ.
///
/// ```text
/// is_device_name(b"aux.txt") // true
/// is_device_name(b"auxiliary") // false
/// ```
pub fn is_device_name(component: &[u8]) -> bool
    ensures { result ≡ is_device component.now }
{
    let stem = stem(component);
    if stem.len() < SHORTEST || LONGEST < stem.len() {
        return false;
    }
    is_among(stem, &DEVICES)
}

/// Whether a component of a path with slashes is a device on Windows. The cost is linear in the length of the path. As
/// `is_device_name` of each component.
///
/// ```text
/// has_device_name(b"refs/heads/nul") // true
/// ```
pub fn has_device_name(path: &[u8]) -> bool
    ensures { result ≡ has_device path.now }
{
    let mut rest = path;
    while let Some((component, after)) = split_component(rest) {
        if is_device_name(component) {
            return true;
        }
        rest = after;
    }
    is_device_name(rest)
}
