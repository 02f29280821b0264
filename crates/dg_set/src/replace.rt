//! A set with some elements lost and others gained, in one walk.
ghost use Rattle.std.specs.Prelude.{◌≡◌, ◌≢◌, ◌+◌, ◌-◌, ◌<◌, ◌≤◌, ◌∷◌, ◌++◌, length, take, drop, vec_len, vec_capacity, IfOk, OnOk};
ghost use Rattle.std.specs.declared.cmp.Ordering.{Ordering};
ghost use Rattle.dg_graph.specs.Elements.{IsSet};
ghost use Rattle.dg_graph.specs.Sets.{unioned, without_all};
ghost use Rattle.dg_set.specs.Indices.{first_cmp, before_it, behind_it, IsRange};
ghost use Rattle.dg_set.specs.Replacements.{IsNextChange};

use crate::search::{range_from, range_to};
use dg_graph::Element;
use std::alloc::{AllocError, Global};
use std::cmp::Ordering;

/// So many items, or changes, are compared one after another before more are sought by longer steps.
const FEW: usize = 8;

/// Which change comes next: of the first element that is gained, or of the first that is lost; or that there
/// is none.
enum Change {
    Gain,
    Loss,
    End,
}

/// How the element stands to the item at the index. It stands before the end of the items.
fn order_at(element: &Element, items: &[Element], index: usize) -> Ordering
    ensures order { result ≡ first_cmp element.now (drop index items.now) }
    ensures within { result ≢ Ordering.Less → index < length items.now }
{
    if index < items.len() {
        element.cmp(&items[index])
    } else {
        Ordering::Less
    }
}

/// What comes next of those gained from index `j` on, and of those lost from index `k` on. What is gained
/// comes first where it is lost too.
fn next_change(gained: &[Element], j: usize, lost: &[Element], k: usize) -> Change
    ensures { IsNextChange gained.now j lost.now k result }
{
    if j < gained.len() {
        match order_at(&gained[j], lost, k) {
            Ordering::Greater => Change::Loss,
            _ => Change::Gain,
        }
    } else if k < lost.len() {
        Change::Loss
    } else {
        Change::End
    }
}

/// Adds the items of a set that come before the element. Answers the index where those begin that come
/// after it. There is room for all of them.
fn keep_before(
    kept: &mut Vec<Element>,
    items: &[Element],
    element: &Element,
) -> Result<usize, AllocError>
    requires set { IsSet items.now }
    requires room { vec_len kept.old + length items.now ≤ vec_capacity kept.old }
    ensures kept { OnOk result (kept.new.items ≡ kept.old.items ++ before_it element.now items.now) }
    ensures rest { IfOk result (λ index. drop index items.now ≡ behind_it element.now items.now) }
    ensures within { IfOk result (λ index. index ≤ length items.now) }
    ensures long { IfOk result (λ index. vec_len kept.new ≤ vec_len kept.old + index) }
    ensures capacity { vec_capacity kept.old ≤ vec_capacity kept.new }
{
    let few = items.len().min(FEW);
    for index in 0..few {
        match items[index].cmp(element) {
            Ordering::Less => kept.push_reserved(items[index]),
            Ordering::Equal => return Ok(index + 1),
            Ordering::Greater => return Ok(index),
        }
    }
    let (end, start) = range_from(items, few, element);
    kept.extend_from_slice(&items[few..end])?;
    Ok(start)
}

/// Adds those gained that come before the element. Answers how many these are, and how many of those lost
/// come before it.
fn pass_before(
    out: &mut Vec<Element>,
    gained: &[Element],
    lost: &[Element],
    element: &Element,
) -> Result<(usize, usize), AllocError>
    requires gained { IsSet gained.now }
    requires lost { IsSet lost.now }
    ensures added { IfOk result (λ many. out.new.items ≡ out.old.items ++ take many.0 gained.now) }
    ensures gained { IfOk result (λ many. take many.0 gained.now ≡ before_it element.now gained.now) }
    ensures lost { IfOk result (λ many. take many.1 lost.now ≡ before_it element.now lost.now) }
    ensures within { IfOk result (λ many. (many.0 ≤ length gained.now) × (many.1 ≤ length lost.now)) }
    ensures long { IfOk result (λ many. vec_len out.new ≡ vec_len out.old + many.0) }
    ensures capacity { vec_capacity out.old ≤ vec_capacity out.new }
{
    let (gains, _) = range_from(gained, 0, element);
    let (losses, _) = range_from(lost, 0, element);
    out.extend_from_slice(&gained[..gains])?;
    Ok((gains, losses))
}

/// How many changes in a row have taken nothing from the set, after one more that has taken so much.
fn idle_after(idle: usize, taken: usize) -> usize
    requires { idle < FEW }
    ensures { result ≤ FEW }
{
    if taken == 0 { idle + 1 } else { 0 }
}

/// The items of `set` without those of `lost`, and with those of `gained`. What stands between two changes,
/// and the changes between two items of the set, are taken whole where they are many. An `Err` says that
/// memory ran out.
pub(crate) fn replaced(
    alloc: Global,
    set: &[Element],
    lost: &[Element],
    gained: &[Element],
) -> Result<Vec<Element>, AllocError>
    requires set { IsSet set.now }
    requires lost { IsSet lost.now }
    requires gained { IsSet gained.now }
    ensures { IfOk result (λ out. out.items ≡ unioned (without_all set.now lost.now) gained.now) }
{
    let mut out = Vec::with_capacity(alloc, set.len().saturating_add(gained.len()))?;
    let mut i = 0;
    let mut j = 0;
    let mut k = 0;
    let mut idle = 0;
    while i < set.len() {
        if idle == FEW {
            // The next item is far behind: all changes in front of it are made at once.
            let (gains, losses) = pass_before(&mut out, &gained[j..], &lost[k..], &set[i])?;
            j += gains;
            k += losses;
            idle = 0;
            continue;
        }
        match next_change(gained, j, lost, k) {
            Change::Gain => {
                let taken = keep_before(&mut out, &set[i..], &gained[j])?;
                out.push_reserved(gained[j]);
                i += taken;
                j += 1;
                idle = idle_after(idle, taken);
            }
            Change::Loss => {
                let taken = keep_before(&mut out, &set[i..], &lost[k])?;
                i += taken;
                k += 1;
                idle = idle_after(idle, taken);
            }
            Change::End => break,
        }
    }
    out.extend_from_slice(&set[i..])?;
    out.extend_from_slice(&gained[j..])?;
    Ok(out)
}

/// The items of either set, each once. An `Err` says that memory ran out.
pub(crate) fn union(
    alloc: Global,
    left: &[Element],
    right: &[Element],
) -> Result<Vec<Element>, AllocError>
    requires left_set { IsSet left.now }
    requires right_set { IsSet right.now }
    ensures { IfOk result (λ out. out.items ≡ unioned left.now right.now) }
{
    replaced(alloc, left, &[], right)
}

/// Moves those of the first `left` cells, which are a set, that come after the element to the cells in front
/// of `free`, as a whole, and puts the element in front of them. Answers how many of the first cells come before
/// the element, and where it stands now.
fn put_behind(cells: &mut [Element], left: usize, free: usize, element: &Element) -> (usize, usize)
    requires set { IsSet (take left cells.old) }
    requires room { left < free }
    requires within { free ≤ length cells.old }
    ensures front { take result.0 cells.new ≡ before_it element.now (take left cells.old) }
    ensures back { drop result.1 cells.new ≡ element.now ∷ behind_it element.now (take left cells.old) ++ drop free cells.old }
    ensures fewer { result.0 ≤ left }
    ensures room { result.0 + free ≤ left + result.1 + 1 }
    ensures within { result.1 < free }
    ensures long { length cells.new ≡ length cells.old }
{
    let (end, start) = range_to(&cells[..left], element);
    let to = free - (left - start);
    cells.copy_within(start..left, to);
    cells[to - 1] = *element;
    (end, to - 1)
}

/// Puts the items into the cells in front of `free`. Answers where they begin.
fn copy_behind(cells: &mut [Element], free: usize, items: &[Element]) -> usize
    requires room { length items.now ≤ free }
    requires within { free ≤ length cells.old }
    ensures front { take result cells.new ≡ take result cells.old }
    ensures back { drop result cells.new ≡ items.now ++ drop free cells.old }
    ensures place { result + length items.now ≡ free }
    ensures long { length cells.new ≡ length cells.old }
{
    let place = free - items.len();
    cells[place..free].copy_from_slice(items);
    place
}

/// Merges those gained into the set in the first `left` cells, from the last on; behind these cells there is
/// a free one for each that is gained. What comes before all that are gained stays where it is. The merged set
/// then stands in the cells in front of the one index, and in those from the other on.
fn merge_behind(cells: &mut [Element], left: usize, gained: &[Element]) -> (usize, usize)
    requires set { IsSet (take left cells.old) }
    requires gained { IsSet gained.now }
    requires room { left + length gained.now ≡ length cells.old }
    ensures merged { take result.0 cells.new ++ drop result.1 cells.new ≡ unioned (take left cells.old) gained.now }
    ensures order { result.0 ≤ result.1 }
    ensures within { result.1 ≤ length cells.new }
    ensures long { length cells.new ≡ length cells.old }
{
    let mut kept = left;
    let mut free = cells.len();
    let mut j = gained.len();
    let mut idle = FEW;
    while 0 < j && 0 < kept {
        if idle == FEW {
            // The last item of the set may be far in front: all that are gained behind it are put there at once.
            let last = cells[kept - 1];
            let (_, behind) = range_to(&gained[..j], &last);
            free = copy_behind(cells, free, &gained[behind..j]);
            j = behind;
            idle = 0;
            continue;
        }
        j -= 1;
        let (before, place) = put_behind(cells, kept, free, &gained[j]);
        idle = idle_after(idle, kept - before);
        kept = before;
        free = place;
    }
    // Where nothing is left of the set, what is left of those gained comes first.
    let place = copy_behind(cells, free, &gained[..j]);
    (kept, place)
}

/// Where the items of a set that come before the element end, and where those that come after it begin. The
/// first few are compared one after another.
fn range_near(items: &[Element], element: &Element) -> (usize, usize)
    requires { IsSet items.now }
    ensures { IsRange element.now items.now result.0 result.1 }
{
    let few = items.len().min(FEW);
    for index in 0..few {
        match items[index].cmp(element) {
            Ordering::Less => {}
            Ordering::Equal => return (index, index + 1),
            Ordering::Greater => return (index, index),
        }
    }
    range_from(items, few, element)
}

/// Moves the items from the one index on to the other down to `place`. Where they stand there already, nothing
/// is moved.
fn move_down(cells: &mut [Element], place: usize, from: usize, to: usize)
    requires down { place ≤ from }
    requires order { from ≤ to }
    requires within { to ≤ length cells.old }
    ensures front { take (place + (to - from)) cells.new ≡ take place cells.old ++ take (to - from) (drop from cells.old) }
    ensures back { drop to cells.new ≡ drop to cells.old }
    ensures long { length cells.new ≡ length cells.old }
{
    if place < from {
        cells.copy_within(from..to, place);
    }
}

/// Moves those of the set in the cells from `next` on that come before the element down to `place`. Answers where
/// they end now, and where those that come after the element begin.
fn move_before(
    cells: &mut [Element],
    place: usize,
    next: usize,
    element: &Element,
) -> (usize, usize)
    requires set { IsSet (drop next cells.old) }
    requires down { place ≤ next }
    requires within { next ≤ length cells.old }
    ensures front { take result.0 cells.new ≡ take place cells.old ++ before_it element.now (drop next cells.old) }
    ensures back { drop result.1 cells.new ≡ behind_it element.now (drop next cells.old) }
    ensures order { result.0 ≤ result.1 }
    ensures further { next ≤ result.1 }
    ensures within { result.1 ≤ length cells.new }
    ensures long { length cells.new ≡ length cells.old }
{
    let (end, start) = range_near(&cells[next..], element);
    move_down(cells, place, next, next + end);
    (place + end, next + start)
}

/// Takes those lost out of the set in the cells, from the first on. What comes before the first that is lost
/// stays where it is. What is left of the set then stands in the cells in front of the one index, and in those
/// from the other on.
fn thin(cells: &mut [Element], lost: &[Element]) -> (usize, usize)
    requires set { IsSet cells.old }
    requires lost { IsSet lost.now }
    ensures left { take result.0 cells.new ++ drop result.1 cells.new ≡ without_all cells.old lost.now }
    ensures order { result.0 ≤ result.1 }
    ensures within { result.1 ≤ length cells.new }
    ensures long { length cells.new ≡ length cells.old }
{
    let mut place = 0;
    let mut next = 0;
    let mut k = 0;
    let mut idle = 0;
    while k < lost.len() && next < cells.len() {
        if idle == FEW {
            // The next item is far behind: all that are lost in front of it are passed by at once.
            let item = cells[next];
            let (losses, _) = range_from(&lost[k..], 0, &item);
            k += losses;
            idle = 0;
            continue;
        }
        let (end, start) = move_before(cells, place, next, &lost[k]);
        idle = idle_after(idle, start - next);
        place = end;
        next = start;
        k += 1;
    }
    (place, next)
}

/// Takes those lost out of the set in the items from `start` to `middle`, in place, and closes the gaps. Answers where
/// what is left of it ends.
fn thin_within(items: &mut [Element], start: usize, middle: usize, lost: &[Element]) -> usize
    requires order { start ≤ middle }
    requires within { middle ≤ length items.old }
    requires set { IsSet (take (middle - start) (drop start items.old)) }
    requires lost { IsSet lost.now }
    ensures left { take result items.new ≡ take start items.old ++ without_all (take (middle - start) (drop start items.old)) lost.now }
    ensures order { start ≤ result }
    ensures fewer { result ≤ middle }
    ensures long { length items.new ≡ length items.old }
{
    let (place, next) = thin(&mut items[start..middle], lost);
    move_down(items, start + place, start + next, middle);
    middle - (next - place)
}

/// Merges those gained into the set in the items from `start` to `middle`, in place, and closes the gap. As many items as
/// are gained stand behind it, and are written over. Answers where the merged set ends.
fn unite_within(items: &mut [Element], start: usize, middle: usize, gained: &[Element]) -> usize
    requires order { start ≤ middle }
    requires room { middle + length gained.now ≡ length items.old }
    requires set { IsSet (take (middle - start) (drop start items.old)) }
    requires gained { IsSet gained.now }
    ensures merged { take result items.new ≡ take start items.old ++ unioned (take (middle - start) (drop start items.old)) gained.now }
    ensures within { result ≤ length items.new }
    ensures long { length items.new ≡ length items.old }
{
    let (end, behind) = merge_behind(&mut items[start..], middle - start, gained);
    let len = items.len();
    move_down(items, start + end, start + behind, len);
    len - (behind - end)
}

/// Replaces the set in the items from `start` to `middle`, in place: it loses those lost, and then gains those gained. As many
/// items as are gained stand behind it, and are written over. What comes before the first change stays where it is.
pub fn replace_within(
    items: &mut Vec<Element>,
    start: usize,
    middle: usize,
    lost: &[Element],
    gained: &[Element],
)
    requires order { start ≤ middle }
    requires room { middle + length gained.now ≡ vec_len items.old }
    requires set { IsSet (take (middle - start) (drop start items.old.items)) }
    requires lost { IsSet lost.now }
    requires gained { IsSet gained.now }
    ensures { items.new.items ≡ take start items.old.items ++ unioned (without_all (take (middle - start) (drop start items.old.items)) lost.now) gained.now }
{
    let left = thin_within(items, start, middle, lost);
    items.truncate(left + gained.len());
    let len = unite_within(items, start, left, gained);
    items.truncate(len);
}

/// The items of `left` that `right` does not have. An `Err` says that memory ran out.
pub(crate) fn minus(
    alloc: Global,
    left: &[Element],
    right: &[Element],
) -> Result<Vec<Element>, AllocError>
    requires left_set { IsSet left.now }
    requires right_set { IsSet right.now }
    ensures { IfOk result (λ kept. kept.items ≡ without_all left.now right.now) }
{
    replaced(alloc, left, right, &[])
}
