// Lent lists: elements cleared and copied.
#![tactic(auto)]

ghost use Rattle.std.specs.Prelude.{◌≡◌, ℕ, ◌≤◌, ◌<◌};
ghost use Rattle.lists.specs.Cleared.{ClearedTo};
ghost use Rattle.lists.specs.Copied.{apart?, Copied};

// Numbers that have a zero.
pub trait Zero: Copy {
    ghost zero: { Self };

    fn zero() -> Self
        ensures { result ≡ zero };
}

impl Zero for u8 {
    ghost zero = { 0 };

    fn zero() -> u8 {
        0
    }
}

impl Zero for u64 {
    ghost zero = { 0 };

    fn zero() -> u64 {
        0
    }
}

// Elements from `from` up to `to` become 0; past the list there are none.
pub fn clear<T: Zero>(list: &mut [T], from: usize, to: usize)
    ensures { ClearedTo T.zero from to list.old list.new }
{
    for i in from..to.min(list.len()) {
        list[i] = T::zero();
    }
}

// Whether both parts lie in a list of so many elements, and do not overlap.
fn are_apart(len: usize, from: usize, to: usize, count: usize) -> bool
    ensures { result ≡ apart? len from to count }
{
    if len < count || len - count < from.max(to) {
        return false;
    }
    (from + count <= to) | (to + count <= from)
}

// So many words from `from` on are copied to those from `to` on.
pub fn copy_words(list: &mut [u64], from: usize, to: usize, count: usize)
    ensures { Copied from to count list.old list.new }
{
    if are_apart(list.len(), from, to, count) {
        list.copy_within(from..from + count, to);
    }
}
