//! What is written with a text of its own, and read again.
ghost use Rattle.pim_saved.specs.Reading.{Reader};
ghost use Rattle.pim_saver.specs.Read.{read};
ghost use Rattle.std.specs.Prelude.{◌≡◌, ◌++◌, List, OnOk, ℕ};

use pim_saved::SavedRefusal;
use std::alloc::AllocError;

/// A value with a text of its own.
pub trait Saved: Copy {
    /// The bytes of a value, and how one is read.
    ghost text: { Self → List ℕ };

    ghost reading: { Reader Self };

    /// Whether the fields of a value fit their widths.
    ghost fits: { Self → Type 0 };

    /// Puts the bytes of a value at the end. An error is want of memory.
    fn write(self, out: &mut Vec<u8>) -> Result<(), AllocError>
        ensures ok { OnOk result (out.new.items ≡ out.old.items ++ text self) }
        ensures fitting { OnOk result (fits self) };

    /// Reads one, and what is behind it.
    fn read(bytes: &[u8]) -> Result<(Self, &[u8]), SavedRefusal>
        ensures { read result ≡ reading bytes.now };
}
