//! Conversions into names, copies of names, and how they are shown.
ghost use Rattle.std.specs.Prelude.{◌≡◌, Some, string_bytes};
ghost use Rattle.gix_ref_hash.specs.Bytes.{shown};
ghost use Rattle.gix_ref_name.specs.NameGrammar.{full_error, partial_error};
ghost use Rattle.gix_ref_name.specs.Names.{Converts, full_ref_bytes, partial_ref_bytes, full_bytes, partial_bytes};

use crate::name::grammar::{broken_full_rule, broken_partial_rule};
use crate::name::{Error, FullName, FullNameRef, PartialName, PartialNameRef};
use bstr::ByteSlice;
use std::alloc::AllocError;
use std::fmt;

/// Fails with the first rule for full names that the text breaks. Takes no memory.
impl<'a> TryFrom<&'a [u8]> for FullNameRef<'a> {
    type Error = Error;

    ghost try_from_gives = { λ text r. Converts full_error full_ref_bytes text.now r };

    fn try_from(bytes: &'a [u8]) -> Result<FullNameRef<'a>, Error> {
        match broken_full_rule(bytes) {
            Some(error) => Err(error),
            None => Ok(FullNameRef { bytes }),
        }
    }
}

impl<'a> TryFrom<&'a Vec<u8>> for FullNameRef<'a> {
    type Error = Error;

    ghost try_from_gives = { λ text r. Converts full_error full_ref_bytes text.now.items r };

    fn try_from(bytes: &'a Vec<u8>) -> Result<FullNameRef<'a>, Error> {
        FullNameRef::try_from(bytes.as_slice())
    }
}

impl<'a> TryFrom<&'a str> for FullNameRef<'a> {
    type Error = Error;

    ghost try_from_gives = { λ text r. Converts full_error full_ref_bytes text.now r };

    fn try_from(text: &'a str) -> Result<FullNameRef<'a>, Error> {
        FullNameRef::try_from(text.as_bytes())
    }
}

impl<'a> TryFrom<&'a String> for FullNameRef<'a> {
    type Error = Error;

    ghost try_from_gives = { λ text r.
        Converts full_error full_ref_bytes (string_bytes text.now) r };

    fn try_from(text: &'a String) -> Result<FullNameRef<'a>, Error> {
        FullNameRef::try_from(text.as_bytes())
    }
}

/// Fails with the first rule for partial names that the text breaks. Takes no memory.
impl<'a> TryFrom<&'a [u8]> for PartialNameRef<'a> {
    type Error = Error;

    ghost try_from_gives = { λ text r. Converts partial_error partial_ref_bytes text.now r };

    fn try_from(bytes: &'a [u8]) -> Result<PartialNameRef<'a>, Error> {
        match broken_partial_rule(bytes) {
            Some(error) => Err(error),
            None => Ok(PartialNameRef { bytes }),
        }
    }
}

impl<'a> TryFrom<&'a Vec<u8>> for PartialNameRef<'a> {
    type Error = Error;

    ghost try_from_gives = { λ text r. Converts partial_error partial_ref_bytes text.now.items r };

    fn try_from(bytes: &'a Vec<u8>) -> Result<PartialNameRef<'a>, Error> {
        PartialNameRef::try_from(bytes.as_slice())
    }
}

impl<'a> TryFrom<&'a str> for PartialNameRef<'a> {
    type Error = Error;

    ghost try_from_gives = { λ text r. Converts partial_error partial_ref_bytes text.now r };

    fn try_from(text: &'a str) -> Result<PartialNameRef<'a>, Error> {
        PartialNameRef::try_from(text.as_bytes())
    }
}

impl<'a> TryFrom<&'a String> for PartialNameRef<'a> {
    type Error = Error;

    ghost try_from_gives = { λ text r.
        Converts partial_error partial_ref_bytes (string_bytes text.now) r };

    fn try_from(text: &'a String) -> Result<PartialNameRef<'a>, Error> {
        PartialNameRef::try_from(text.as_bytes())
    }
}

/// Keeps the bytes without a copy, and fails with the first rule for full names that they break.
impl TryFrom<Vec<u8>> for FullName {
    type Error = Error;

    ghost try_from_gives = { λ text r. Converts full_error full_bytes text.items r };

    fn try_from(bytes: Vec<u8>) -> Result<FullName, Error> {
        match broken_full_rule(&bytes) {
            Some(error) => Err(error),
            None => Ok(FullName { bytes }),
        }
    }
}

/// Keeps the bytes without a copy, and fails with the first rule for full names that they break.
impl TryFrom<String> for FullName {
    type Error = Error;

    ghost try_from_gives = { λ text r. Converts full_error full_bytes (string_bytes text) r };

    fn try_from(text: String) -> Result<FullName, Error> {
        FullName::try_from(text.into_bytes())
    }
}

/// A copy in the allocator of the name; the error says that there was no memory for it.
impl Clone for FullName {
    ghost is_clone = { λ n copy. full_bytes copy ≡ full_bytes n };

    fn clone(&self) -> Result<FullName, AllocError> {
        Ok(FullName {
            bytes: self.bytes.clone()?,
        })
    }
}

/// Keeps the bytes without a copy, and fails with the first rule for partial names that they break.
impl TryFrom<Vec<u8>> for PartialName {
    type Error = Error;

    ghost try_from_gives = { λ text r. Converts partial_error partial_bytes text.items r };

    fn try_from(bytes: Vec<u8>) -> Result<PartialName, Error> {
        match broken_partial_rule(&bytes) {
            Some(error) => Err(error),
            None => Ok(PartialName { bytes }),
        }
    }
}

/// Keeps the bytes without a copy, and fails with the first rule for partial names that they break.
impl TryFrom<String> for PartialName {
    type Error = Error;

    ghost try_from_gives = { λ text r. Converts partial_error partial_bytes (string_bytes text) r };

    fn try_from(text: String) -> Result<PartialName, Error> {
        PartialName::try_from(text.into_bytes())
    }
}

/// A copy in the allocator of the name; the error says that there was no memory for it.
impl Clone for PartialName {
    ghost is_clone = { λ n copy. partial_bytes copy ≡ partial_bytes n };

    fn clone(&self) -> Result<PartialName, AllocError> {
        Ok(PartialName {
            bytes: self.bytes.clone()?,
        })
    }
}

impl<'a> From<&'a FullName> for FullNameRef<'a> {
    ghost from_gives = { λ n r. full_ref_bytes r ≡ full_bytes n.now };

    fn from(name: &'a FullName) -> FullNameRef<'a> {
        name.as_ref()
    }
}

impl<'a> From<FullNameRef<'a>> for PartialNameRef<'a> {
    ghost from_gives = { λ n r. partial_ref_bytes r ≡ full_ref_bytes n };

    fn from(name: FullNameRef<'a>) -> PartialNameRef<'a> {
        name.as_partial_name()
    }
}

impl<'a> From<&'a FullName> for PartialNameRef<'a> {
    ghost from_gives = { λ n r. partial_ref_bytes r ≡ full_bytes n.now };

    fn from(name: &'a FullName) -> PartialNameRef<'a> {
        name.as_ref().as_partial_name()
    }
}

impl<'a> From<&'a PartialName> for PartialNameRef<'a> {
    ghost from_gives = { λ n r. partial_ref_bytes r ≡ partial_bytes n.now };

    fn from(name: &'a PartialName) -> PartialNameRef<'a> {
        name.as_ref()
    }
}

/// Writes the bytes of a name that is UTF-8, and of any other name the lossy text of `bstr`.
impl<'a> fmt::Display for FullNameRef<'a> {
    ghost output = { λ n. Some (shown (full_ref_bytes n)) };

    fn fmt<W: fmt::Write>(&self, f: &mut fmt::Formatter<W>) -> fmt::Result {
        self.bytes.as_bstr().fmt(f)
    }
}

/// Writes the bytes of a name that is UTF-8, and of any other name the lossy text of `bstr`.
impl<'a> fmt::Display for PartialNameRef<'a> {
    ghost output = { λ n. Some (shown (partial_ref_bytes n)) };

    fn fmt<W: fmt::Write>(&self, f: &mut fmt::Formatter<W>) -> fmt::Result {
        self.bytes.as_bstr().fmt(f)
    }
}

/// As of the lent name.
impl fmt::Display for FullName {
    ghost output = { λ n. Some (shown (full_bytes n)) };

    fn fmt<W: fmt::Write>(&self, f: &mut fmt::Formatter<W>) -> fmt::Result {
        self.as_ref().fmt(f)
    }
}

/// As of the lent name.
impl fmt::Display for PartialName {
    ghost output = { λ n. Some (shown (partial_bytes n)) };

    fn fmt<W: fmt::Write>(&self, f: &mut fmt::Formatter<W>) -> fmt::Result {
        self.as_ref().fmt(f)
    }
}
