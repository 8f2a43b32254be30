//! Laws of shapes, each the contract of a function that does nothing.
ghost use Rattle.lh_shape.specs.Laws.{MergedDrivesWish, MergedDrivesAreTyped, MergedDrivesRead, MergedDrivesDrive};

/// Drives of one part after one delay that follow each other wish, as merged, what they wish one after the other. As merged they
/// are typed, where each is, and read and drive no other parts.
pub fn merged_drives_law()
    ensures wish { MergedDrivesWish }
    ensures typed { MergedDrivesAreTyped }
    ensures read { MergedDrivesRead }
    ensures drive { MergedDrivesDrive }
{}
