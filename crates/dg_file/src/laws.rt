//! The laws of the bytes that a batch needs, and an upgrade, and of images that are just a file. The functions do
//! nothing: their clauses are the laws, proved of the definitions.

ghost use Rattle.dg_file.specs.IndexLaws.{BatchesAreMeasured, FilesAreTidy, TidyImagesAreFiles, UpgradesAreMeasured};

/// The bytes that a batch needs are those of the file that has it. Does nothing.
pub fn law_batches_are_measured()
    ensures { BatchesAreMeasured }
{}

/// The bytes that an upgrade needs are those of the upgraded file. Does nothing.
pub fn law_upgrades_are_measured()
    ensures { UpgradesAreMeasured }
{}

/// An image of a history has just the bytes in use, with a gate of 0 at their end, exactly where it is the file of the
/// history and that gate. Does nothing.
pub fn law_tidy_images_are_files()
    ensures file { TidyImagesAreFiles }
    ensures tidy { FilesAreTidy }
{}
