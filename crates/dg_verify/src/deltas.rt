//! Comparing the tops and downs of an index with those that its events determine.

ghost use Rattle.std.specs.Prelude.{◌≡◌, IfErr, IfSome, IsErrOf, None, OnOk, filter, if◌then◌else◌, length};
ghost use Rattle.dg_disk.specs.Calls.{Fails, ReadsDisk};
ghost use Rattle.dg_file.specs.Images.{IsOpenedAs};
ghost use Rattle.dg_index.specs.FileOfHistory.{lent};
ghost use Rattle.dg_index.specs.OpenedIndex.{entry_at, total};
ghost use Rattle.dg_records.specs.ColumnReads.{TakesAtMost};
ghost use Rattle.dg_start.specs.EventSources.{WhereTold};
ghost use Rattle.dg_verify.specs.Deltas.{first_unlike, has_kind, unlike_of};
ghost use Rattle.dg_verify.specs.RecordBytes.{columns_bytes};
ghost use Rattle.dg_verify.specs.Verification.{IsWrong, keyed_column};

use crate::due_deltas::DueDeltas;
use crate::records::compare_columns;
use crate::stop::Stop;
use dg_disk::Disk;
use dg_file::Index;
use dg_history::Key;
use dg_index::PerColumn;

/// What a delta leads from.
#[derive(Clone, Copy)]
pub enum DeltaKind {
    /// From the root to the first interior node of a height.
    Top,
    /// From an interior node to a child.
    Down,
}

// Whether the key is that of such a delta.
fn has_kind(kind: DeltaKind, key: Key) -> bool
    ensures { result ≡ has_kind kind key }
{
    match kind {
        DeltaKind::Top => matches!(key, Key::Top(_)),
        DeltaKind::Down => matches!(key, Key::Down(_, _)),
    }
}

// Compares the columns of the record with these, where it is such a delta.
fn compare_delta<D: Disk>(
    index: &Index,
    disk: &mut D,
    kind: DeltaKind,
    key: Key,
    due: PerColumn<&[u8]>,
) -> Result<(), Stop>
    requires image { IfSome (D.image disk.old) (λ image. IsOpenedAs image index.now.opening) }
    ensures alike { OnOk result (WhereTold (D.image disk.old)
        (λ image. unlike_of image index.now.opening kind key (lent due.entry) ≡ None)) }
    ensures stopped { IfErr result (λ stop. WhereTold (D.image disk.old)
        (λ image. IsWrong stop (keyed_column key (unlike_of image index.now.opening kind key (lent due.entry))))) }
    ensures cause { IsErrOf result Stop.Disk → Fails D.Disk disk.old disk.new }

    // what it reads, and what it leaves
    ensures takes { WhereTold (D.image disk.old) (λ image. TakesAtMost (if has_kind kind key then total (entry_at index.now.opening key).lengths else 0) (D.taken disk.old) (D.taken disk.new)) }
    ensures disk { ReadsDisk D.Disk disk.old disk.new }
{
    if has_kind(kind, key) {
        compare_columns(index, disk, key, due)
    } else {
        Ok(())
    }
}

/// Compares the deltas of this kind with those that are due, in the order of their keys. `Stop::Wrong` for the first
/// that is another, and its first such column; `Stop::Disk` where the disk failed, `Stop::Memory` for want of memory.
pub fn compare_deltas<D: Disk>(
    index: &Index,
    disk: &mut D,
    due: &DueDeltas,
    kind: DeltaKind,
) -> Result<(), Stop>
    requires many { length due.now.keys.items ≡ length due.now.segment.deltas }
    requires image { IfSome (D.image disk.old) (λ image. IsOpenedAs image index.now.opening) }
    ensures alike { OnOk result (WhereTold (D.image disk.old)
        (λ image. first_unlike image index.now.opening kind due.now.keys.items due.now.segment.deltas ≡ None)) }
    ensures stopped { IfErr result (λ stop. WhereTold (D.image disk.old)
        (λ image. IsWrong stop (first_unlike image index.now.opening kind due.now.keys.items due.now.segment.deltas))) }
    ensures cause { IsErrOf result Stop.Disk → Fails D.Disk disk.old disk.new }

    // what it reads, and what it leaves
    ensures takes { WhereTold (D.image disk.old) (λ image. TakesAtMost (columns_bytes index.now.opening (filter (has_kind kind) due.now.keys.items)) (D.taken disk.old) (D.taken disk.new)) }
    ensures disk { ReadsDisk D.Disk disk.old disk.new }
{
    due.segment.facts();
    let rows = due.segment.delta_rows();
    let mut columns = due.segment.delta_columns();
    for (number, row) in rows.iter().enumerate() {
        let lengths = row.lengths;
        let (structure, after_structure) = columns.split_at(lengths.structure as usize);
        let (node_attrs, after_nodes) = after_structure.split_at(lengths.node_attrs as usize);
        let (edge_attrs, after_record) = after_nodes.split_at(lengths.edge_attrs as usize);
        // No delta has messages.
        let record = PerColumn {
            structure,
            node_attrs,
            edge_attrs,
            transient: &[],
        };
        let key = due.keys[number];
        compare_delta(index, disk, kind, key, record)?;
        columns = after_record;
    }
    Ok(())
}
