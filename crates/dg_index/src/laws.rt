//! The laws of files and images, each the clause of a function that does nothing.
ghost use Rattle.dg_index.specs.FileLaws.{ImagesAreOpened, BatchesAreAdded, UpgradesAreAdded, FilesGrow, FilesUpgrade, ColumnsAreKept};

/// An image of a history is opened as that history. Does nothing.
pub fn law_images_are_opened()
    ensures { ImagesAreOpened }
{}

/// What a history with one more batch is opened as is what it was opened as, with the segment of the
/// batch behind it. Does nothing.
pub fn law_batches_are_added()
    ensures { BatchesAreAdded }
{}

/// What an upgraded history is opened as is what it was opened as, with the marker behind it. Does nothing.
pub fn law_upgrades_are_added()
    ensures { UpgradesAreAdded }
{}

/// The file of an upgraded history is the file as it was, an open gate and the marker. Does nothing.
pub fn law_files_upgrade()
    ensures { FilesUpgrade }
{}

/// The file of a history with one more batch is the file as it was, an open gate and the segment of
/// the batch. Does nothing.
pub fn law_files_grow()
    ensures { FilesGrow }
{}

/// At each key that an index of the history keeps, an image has the columns of the history's record.
/// Does nothing.
pub fn law_columns_are_kept()
    ensures { ColumnsAreKept }
{}
