//! The catalogue of an index: for each key the lengths and the place of its columns.
ghost use Rattle.std.specs.Prelude.{◌≡◌, ◌≢◌, ◌≤◌, ◌<◌, ◌+◌, ◌^◌, List, [], ◌∷◌, ◌++◌, length, None, Some, is_some, IfSome, IsNone, IsTrue, IsOk, OnOk, OnErr, ◌↔◌};
ghost use Rattle.std.specs.List.{All, IsDistinct};
ghost use Rattle.std.specs.Map.{keys_of, values_of};
ghost use Rattle.dg_index.specs.declared.entry.Entry.{Entry};
ghost use Rattle.dg_index.specs.IndexGrowth.{columns_in};
ghost use Rattle.dg_index.specs.OpenedIndex.{total, laid};
ghost use Rattle.dg_history.specs.declared.node.Key.{Key};
ghost use Rattle.dg_history.specs.declared.node.Key.TheVariants as a_key;
ghost use Rattle.dg_history.specs.Keys.{same_key, is_list};
ghost use Rattle.dg_catalogue.specs.Keys.{IsNumbered};
ghost use Rattle.dg_catalogue.specs.Entries.{column_length_in, offset_in, spanned, IsInRange, EndsIfList};
ghost use Rattle.dg_catalogue.specs.Additions.{IsRoomFor};
ghost use Rattle.dg_catalogue.specs.Held.{entry_of, length_of, offset_of, ends_of};

use dg_graph::Column;
use dg_history::Key;
use dg_index::{Ends, Entry, PerColumn, Row};
use indexmap::IndexMap;
use std::alloc::{AllocError, Global};
use std::marker::Model;

/// The most bytes that all records may have together, and the greatest offset at which one may end:
/// 2^48.
pub const BYTES_MAX: u64 = 281_474_976_710_656;

/// The most lists of events: the number of each is less. 2^28.
pub const LISTS_MAX: u32 = 268_435_456;

/// The limits of a catalogue as numbers, since code and definitions alike name the constants. Does
/// nothing.
pub fn catalogue_limits()
    ensures bytes { BYTES_MAX ≡ 2 ^ 48 }
    ensures lists { LISTS_MAX ≡ 2 ^ 28 }
{}

/// The bytes of a column of a record.
pub fn column_length(entry: &Entry, col: Column) -> u64
    ensures { result ≡ column_length_in entry.now col }
{
    match col {
        Column::Structure => entry.lengths.structure,
        Column::NodeAttr => entry.lengths.node_attrs,
        Column::EdgeAttr => entry.lengths.edge_attrs,
        Column::Transient => entry.lengths.transient,
    }
}

/// The byte of the file at which a column of a record begins. The entry is one that a catalogue may
/// hold.
pub fn column_offset(entry: &Entry, col: Column) -> u64
    requires { IsInRange entry.now }
    ensures { result ≡ offset_in entry.now col }
{
    let PerColumn {
        structure,
        node_attrs,
        edge_attrs,
        ..
    } = entry.lengths;
    match col {
        Column::Structure => entry.offset,
        Column::NodeAttr => entry.offset + structure,
        Column::EdgeAttr => entry.offset + structure + node_attrs,
        Column::Transient => entry.offset + structure + node_attrs + edge_attrs,
    }
}

/// What an index holds: for each key the lengths of its four columns, in bytes, and the offset of
/// the first; the first and last instant of each list, and those of the history.
#[derive(Drop)]
pub struct Catalogue {
    records: IndexMap<Key, Entry>,
    span: Option<Ends>,
    // For how many more records room was made. The map has room for at least so many.
    room: u64,
}

impl Model for Catalogue {
    ghost use Rattle.std.specs.Prelude.{◌≤◌};
    ghost use Rattle.indexmap.specs.IndexMap.{spare};
    ghost use Rattle.dg_catalogue.specs.Entries.{Holdings, RecordsAreSound};

    ghost Value = { Holdings };

    ghost view = { λ c. record { entries = c.records.entries; span = c.span; spare = c.room } };

    ghost invariant = { λ c. RecordsAreSound c.records.entries × (c.room ≤ spare c.records) };
}

impl Catalogue {
    /// A catalogue that holds nothing, whose memory comes from `alloc`. Takes no memory yet.
    pub fn new(alloc: Global) -> Catalogue
        ensures entries { result.entries ≡ [] }
        ensures span { result.span ≡ None }
    {
        Catalogue {
            records: IndexMap::new(alloc),
            span: None,
            room: 0,
        }
    }

    /// What holds of each catalogue. Does nothing.
    pub fn facts(&self)
        ensures distinct { IsDistinct same_key (keys_of self.now.entries) }
        ensures bytes { columns_in self.now.entries ≤ BYTES_MAX }
        ensures in_range { All IsInRange (values_of self.now.entries) }
        ensures numbered { All IsNumbered (keys_of self.now.entries) }
        ensures ends { All EndsIfList self.now.entries }
        ensures held { (key : Key) (e : Entry) → entry_of self.now key ≡ Some e → IsInRange e × IsNumbered key × EndsIfList (key, e) }
        ensures one { (key other : Key) → IsTrue (same_key key other) → key ≡ other }
    {
        // Its clauses tell that the keys are distinct.
        self.records.len();
    }

    /// Makes room for `records` more records. An `Err` says that memory ran out; whatever it
    /// answers, all that is held is as before.
    pub fn reserve(&mut self, records: u64) -> Result<(), AllocError>
        ensures room { OnOk result (records ≤ self.new.spare) }
        ensures succeeds { records ≤ self.old.spare → IsOk result }

        // What is held stays, and so does the room.
        ensures entries { self.new.entries ≡ self.old.entries }
        ensures span { self.new.span ≡ self.old.span }
        ensures kept { self.old.spare ≤ self.new.spare }
        ensures err { OnErr result (self.new ≡ self.old) }
    {
        self.records.reserve(records as usize)?;
        self.room = self.room.max(records);
        Ok(())
    }

    /// Adds a record, whose four columns have these lengths in bytes and stand one after another from
    /// the byte `offset` on. There is room for it, its key is not held yet, and `ends` is given exactly
    /// for a list, whose number is below `LISTS_MAX`. It ends at `BYTES_MAX` at the latest, and so many
    /// bytes have all records at the most. Takes no memory.
    pub fn add(&mut self, key: Key, lengths: PerColumn<u64>, offset: u64, ends: Option<Ends>)
        requires room { 1 ≤ self.old.spare }
        requires lacks { entry_of self.old key ≡ None }
        requires in_range { offset + total lengths ≤ BYTES_MAX }
        requires bytes { columns_in self.old.entries + total lengths ≤ BYTES_MAX }
        requires numbered { IsNumbered key }
        requires ends { is_some ends ≡ is_list key }

        // The record stands last, and uses room for one.
        ensures entries { self.new.entries ≡ self.old.entries ++ (key, record { lengths = lengths; offset = offset; ends = ends }) ∷ [] }
        ensures held { entry_of self.new key ≡ Some (record { lengths = lengths; offset = offset; ends = ends }) }
        ensures bytes { columns_in self.new.entries ≡ columns_in self.old.entries + total lengths }
        ensures spare { self.new.spare + 1 ≡ self.old.spare }

        // All else stays.
        ensures others { (other : Key) → other ≢ key → entry_of self.new other ≡ entry_of self.old other }
        ensures span { self.new.span ≡ self.old.span }
    {
        let entry = Entry {
            lengths,
            offset,
            ends,
        };
        // There is room, so this cannot fail.
        self.records.insert(key, entry).unwrap();
        self.room -= 1;
    }

    /// Adds the records with these keys, in their order: for each key a row, whose columns stand one
    /// behind another from the byte `offset` on, behind those of the row before it. There is room for
    /// all of them. Takes no memory.
    pub fn add_all(&mut self, keys: &[Key], rows: &[Row], offset: u64)
        requires room { IsRoomFor self.old offset keys.now rows.now }
        requires same { length keys.now ≡ length rows.now }

        // The records stand last, and use room for so many.
        ensures entries { self.new.entries ≡ self.old.entries ++ laid offset keys.now rows.now }
        ensures spare { self.new.spare + length keys.now ≡ self.old.spare }

        // All else stays.
        ensures span { self.new.span ≡ self.old.span }
    {
        let mut offset = offset;
        for i in 0..keys.len() {
            let row = rows[i];
            self.add(keys[i], row.lengths, offset, row.ends);
            let PerColumn {
                structure,
                node_attrs,
                edge_attrs,
                transient,
            } = row.lengths;
            offset += structure + node_attrs + edge_attrs + transient;
        }
    }

    /// Notes a batch with these instants: the history's last instant becomes that of the batch, and
    /// its first becomes that of the batch where there was none. Takes no memory.
    pub fn add_batch(&mut self, ends: Ends)
        ensures span { self.new.span ≡ Some (spanned self.old.span ends) }

        // All else stays.
        ensures entries { self.new.entries ≡ self.old.entries }
        ensures spare { self.new.spare ≡ self.old.spare }
    {
        let first = match self.span {
            Some(span) => span.first,
            None => ends.first,
        };
        self.span = Some(Ends {
            first,
            last: ends.last,
        });
    }

    /// How many records are held.
    pub fn len(&self) -> usize
        ensures { result ≡ length self.now.entries }
    {
        self.records.len()
    }

    /// What is told of a record, or `None` where the key is not held. One look-up by hash: for more
    /// than one column ask for this.
    pub fn entry(&self, key: Key) -> Option<Entry>
        ensures entry { result ≡ entry_of self.now key }
        ensures in_range { IfSome result IsInRange }
        ensures ends { IfSome result (λ e. is_some e.ends ≡ is_list key) }
    {
        self.records.get(&key).copied()
    }

    /// The bytes of a column of a record, or `None` where the key is not held.
    pub fn length(&self, key: Key, col: Column) -> Option<u64>
        ensures length { result ≡ length_of self.now key col }
        ensures within { IfSome result (λ n. n ≤ BYTES_MAX) }
        ensures lacks { IsNone result ↔ (entry_of self.now key ≡ None) }
    {
        Some(column_length(&self.entry(key)?, col))
    }

    /// The byte of the file at which a column of a record begins, or `None` where the key is not
    /// held.
    pub fn place(&self, key: Key, col: Column) -> Option<u64>
        ensures place { result ≡ offset_of self.now key col }
        ensures within { IfSome result (λ n. n ≤ BYTES_MAX) }
        ensures lacks { IsNone result ↔ (entry_of self.now key ≡ None) }
    {
        Some(column_offset(&self.entry(key)?, col))
    }

    /// The first and last instant of a list, or `None` where no such list is held.
    pub fn list_ends(&self, list: u32) -> Option<Ends>
        ensures ends { result ≡ ends_of self.now list }
        ensures lacks { IsNone result ↔ (entry_of self.now (a_key.List list) ≡ None) }
    {
        self.entry(Key::List(list))?.ends
    }

    /// The first and last instant of the history, or `None` where no batch was added.
    pub fn span(&self) -> Option<Ends>
        ensures { result ≡ self.now.span }
    {
        self.span
    }
}
