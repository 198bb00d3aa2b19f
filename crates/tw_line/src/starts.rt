//! The list of the byte offsets at which the characters of a text start.

ghost use Rattle.std.specs.Prelude.{◌≡◌, ℕ, ◌+◌, ◌-◌, ◌^◌, ◌<◌, ◌≤◌, ◌↔◌, ◌++◌, length, map, take, drop, slice_index, vec_len, slice_range, All, IsTrue};
ghost use Rattle.std.specs.Vec.{vec_capacity};
ghost use Rattle.std.specs.List.Sorted.{IsStrictlyIncreasing};
ghost use Rattle.std.specs.Str.{chars};
ghost use Rattle.tw_line.specs.Starts.{starts_from, with_starts, binary_digits};

/// Returns true if the offset is below `at`. It adds one to the count of comparisons.
fn is_below(offset: usize, at: usize, comparisons: &mut u32) -> bool
    requires { comparisons.old + 1 < 2 ^ 32 }
    ensures answer { IsTrue result ↔ (offset < at) }
    ensures counted { comparisons.new ≡ comparisons.old + 1 }
{
    *comparisons += 1;
    offset < at
}

/// Returns how many of the rising offsets are below `at`, and how many comparisons found it. One comparison with the
/// middle offset leaves a half to be searched.
pub fn count_below(starts: &[usize], at: usize) -> (usize, u32)
    requires { IsStrictlyIncreasing starts.now }
    ensures within { result.0 ≤ length starts.now }
    ensures below { (k : ℕ) → k < result.0 → slice_index starts.now k < at }
    ensures rest { (k : ℕ) → result.0 ≤ k → k < length starts.now → at ≤ slice_index starts.now k }
    ensures some { 0 < length starts.now → 0 < result.1 }
    ensures few { result.1 ≤ binary_digits (length starts.now) }
{
    let (front, back) = starts.split_at(starts.len() / 2);
    let Some((middle, later)) = back.split_first() else {
        return (0, 0);
    };
    let mut comparisons = 0;
    if is_below(*middle, at, &mut comparisons) {
        let (count, more) = count_below(later, at);
        (front.len() + 1 + count, comparisons + more)
    } else {
        let (count, more) = count_below(front, at);
        (count, comparisons + more)
    }
}

/// Adds to each offset.
fn raise(starts: &mut [usize], by: usize)
    requires { All (λ n. n + by < 2 ^ 64) starts.old }
    ensures { starts.new ≡ map (λ n. n + by) starts.old }
{
    for start in starts.iter_mut() {
        *start += by;
    }
}

/// Takes away from each offset.
fn lower(starts: &mut [usize], by: usize)
    requires { All (λ n. by ≤ n) starts.old }
    ensures { starts.new ≡ map (λ n. n - by) starts.old }
{
    for start in starts.iter_mut() {
        *start -= by;
    }
}

/// Puts the starts of the characters of `text` last, where it stands from the offset `at` on.
fn push_starts(starts: &mut Vec<usize>, at: usize, text: &str)
    requires fits { at + length text.now < 2 ^ 64 }
    requires room { vec_len starts.old + length (chars text.now) ≤ vec_capacity starts.old }
    ensures items { starts.new.items ≡ starts.old.items ++ starts_from at (chars text.now) }
    ensures capacity { vec_capacity starts.old ≤ vec_capacity starts.new }
{
    let mut start = at;
    for c in text.chars() {
        let Ok(()) = starts.push(start) else {
            unreachable!()
        };
        start += c.len_utf8();
    }
}

/// Adds to each offset from the index on.
fn raise_from(starts: &mut Vec<usize>, index: usize, by: usize)
    requires inside { index ≤ vec_len starts.old }
    requires fits { All (λ n. n + by < 2 ^ 64) (drop index starts.old.items) }
    ensures items { starts.new.items ≡ take index starts.old.items
        ++ map (λ n. n + by) (drop index starts.old.items) }
    ensures capacity { vec_capacity starts.new ≡ vec_capacity starts.old }
{
    raise(&mut starts[index..], by);
}

/// Moves the offsets from `count` on to the index.
fn move_forward(starts: &mut Vec<usize>, index: usize, count: usize)
    requires order { index ≤ count }
    requires inside { count ≤ vec_len starts.old }
    ensures items { let old = starts.old.items in
        starts.new.items ≡ take index old ++ (drop count old ++ slice_range old index count) }
    ensures capacity { vec_capacity starts.new ≡ vec_capacity starts.old }
{
    let moved = starts.len() - count;
    starts[index..].rotate_right(moved);
}

/// Puts the starts of the characters of `text` at the index, where the text is inserted at the
/// offset `at`: what starts later is raised.
pub fn insert_starts(starts: &mut Vec<usize>, index: usize, at: usize, text: &str)
    requires inside { index ≤ vec_len starts.old }
    requires fits { at + length text.now < 2 ^ 64 }
    requires later_fit { All (λ n. n + length text.now < 2 ^ 64) (drop index starts.old.items) }
    requires room { vec_len starts.old + length (chars text.now) ≤ vec_capacity starts.old }
    ensures items { starts.new.items ≡ with_starts index at text.now starts.old.items }
    ensures capacity { vec_capacity starts.old ≤ vec_capacity starts.new }
{
    let count = starts.len();
    raise_from(starts, index, text.len());
    push_starts(starts, at, text);
    move_forward(starts, index, count);
}

/// Takes away the starts from one index to another, whose characters take `bytes` bytes: what starts later is lowered.
/// It keeps the memory.
pub fn remove_starts(starts: &mut Vec<usize>, first: usize, last: usize, bytes: usize)
    requires order { first ≤ last }
    requires inside { last ≤ vec_len starts.old }
    requires later { All (λ n. bytes ≤ n) (drop last starts.old.items) }
    ensures items { starts.new.items ≡ take first starts.old.items
        ++ map (λ n. n - bytes) (drop last starts.old.items) }
    ensures capacity { vec_capacity starts.new ≡ vec_capacity starts.old }
{
    starts.drain(first..last);
    lower(&mut starts[first..], bytes);
}
