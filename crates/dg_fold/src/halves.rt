//! Where to cut what is to be composed in two.

ghost use Rattle.std.specs.Prelude.{◌<◌, ◌≤◌, length};

/// What is composed with others of its kind.
pub(crate) trait Weighed {
    /// How much of it there is. It is at least 1, so that many that hold nothing are halved as well.
    fn weight(&self) -> u64;
}

/// The weight of all of them, or the greatest number where it is more.
pub(crate) fn all_weigh<T: Weighed>(items: &[T]) -> u64 {
    let mut sum = 0u64;
    for item in items {
        sum = sum.saturating_add(item.weight());
    }
    sum
}

/// Where to cut them in two, so that what is in front comes to this weight.
pub(crate) fn cut_at<T: Weighed>(items: &[T], weight: u64) -> usize
    requires { 2 ≤ length items.now }
    ensures some { 0 < result }
    ensures within { result < length items.now }
{
    let mut sum = 0u64;
    for (i, item) in items.iter().enumerate() {
        if i == items.len() - 1 {
            break;
        }
        sum = sum.saturating_add(item.weight());
        if sum >= weight {
            return i + 1;
        }
    }
    items.len() - 1
}

/// Where to cut them in two, so that both sides have about half of the weight.
pub(crate) fn middle_of<T: Weighed>(items: &[T]) -> usize
    requires { 2 ≤ length items.now }
    ensures some { 0 < result }
    ensures within { result < length items.now }
{
    cut_at(items, all_weigh(items) / 2)
}
