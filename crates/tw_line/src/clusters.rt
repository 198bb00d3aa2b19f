//! Steps over legacy grapheme clusters.

ghost use Rattle.std.specs.Prelude.{◌≡◌, ◌≤◌, ◌<◌, true, length};
ghost use Rattle.std.specs.Str.{IsCharBoundary};
ghost use Rattle.tw_line.specs.Clusters.{is_cluster_boundary, cluster_after, cluster_before};
ghost use Rattle.tw_line.specs.Extremes.{iterate};

use crate::movements::RepeatCount;
use unicode_segmentation::GraphemeCursor;

/// The steps go over legacy clusters, which are not extended.
const IS_EXTENDED: bool = false;

/// Returns the least cluster boundary above `at`, or `at` where there is none.
pub fn cluster_after(line: &str, at: usize) -> usize
    requires { IsCharBoundary line.now at }
    ensures value { result ≡ cluster_after line.now at }
    ensures boundary { IsCharBoundary line.now result }
{
    clusters_after(line, at, 1)
}

/// Returns where `count` steps ahead lead from `at`. One cursor takes them all, and it returns as soon as there is no
/// boundary above.
pub fn clusters_after(line: &str, at: usize, count: RepeatCount) -> usize
    requires { IsCharBoundary line.now at }
    ensures value { result ≡ iterate (cluster_after line.now) count at }
    ensures boundary { IsCharBoundary line.now result }
{
    let mut cursor = GraphemeCursor::new(at, line.len(), IS_EXTENDED);
    let mut end = at;
    for _round in 0..count {
        match cursor.next_boundary(line, 0) {
            Ok(Some(next)) => end = next,
            Ok(None) => return end,
            Err(_) => unreachable!(),
        }
    }
    end
}

/// Returns whether `at` is a cluster boundary, and the least one above it, or `at` where there is none. What stands
/// before the cluster boundary `from` is not looked at.
pub fn cluster_from(line: &str, from: usize, at: usize) -> (bool, usize)
    requires start { IsCharBoundary line.now from }
    requires begins { is_cluster_boundary line.now from ≡ true }
    requires order { from ≤ at }
    requires boundary { IsCharBoundary line.now at }
    ensures begins { result.0 ≡ is_cluster_boundary line.now at }
    ensures value { result.1 ≡ cluster_after line.now at }
    ensures boundary { IsCharBoundary line.now result.1 }
    ensures ahead { at < length line.now → at < result.1 }
{
    let part = &line[from..];
    let mut cursor = GraphemeCursor::new(at - from, part.len(), IS_EXTENDED);
    let Ok(begins) = cursor.is_boundary(part, 0) else {
        unreachable!()
    };
    match cursor.next_boundary(part, 0) {
        Ok(Some(next)) => (begins, from + next),
        Ok(None) => (begins, at),
        Err(_) => unreachable!(),
    }
}

/// Returns where `count` steps back lead from `at`. One cursor takes them all, and it returns as soon as there is no
/// boundary below.
pub fn clusters_before(line: &str, at: usize, count: RepeatCount) -> usize
    requires { IsCharBoundary line.now at }
    ensures value { result ≡ iterate (cluster_before line.now) count at }
    ensures boundary { IsCharBoundary line.now result }
{
    let mut cursor = GraphemeCursor::new(at, line.len(), IS_EXTENDED);
    let mut start = at;
    for _round in 0..count {
        match cursor.prev_boundary(line, 0) {
            Ok(Some(previous)) => start = previous,
            Ok(None) => return start,
            Err(_) => unreachable!(),
        }
    }
    start
}
