//! Laws of flat texts. Each is the contract of a function that does nothing, so that other crates can cite it.
ghost use Rattle.lh_flat.specs.Agrees.{RenamesAsCopied};
ghost use Rattle.lh_flat.specs.Lengths.{LengthsAdd};

/// A copy has as many instructions as its unit and the functions that it calls, each counted as often as it is copied. So a flat text
/// can be counted before it is made.
pub fn length_law()
    ensures { LengthsAdd }
{}

/// Where each new id has the name that a copy gives, an instruction with new ids says what the copy of its text says.
pub fn renaming_law()
    ensures { RenamesAsCopied }
{}
