//! The interface of a network.

ghost use Rattle.std.specs.Prelude.{◌≡◌, ◌<◌, ℕ, List, Some, length, slice_get};
ghost use Rattle.dimacs_network.specs.{declared.network.ArcView.{ArcView}, Arcs.{IsKthBetween}};

/// An arc of any instance. For a maximum flow `low` and `cost` are 0; in a graph `low` and `cap` are 0, and `cost` is
/// the weight.
#[derive(Clone, Copy, Debug, PartialEq, Eq)]
pub struct ArcView {
    pub tail: u32,
    pub head: u32,
    pub low: i64,
    pub cap: i64,
    pub cost: i64,
}

/// A number of nodes, and arcs in the order of the text. Nodes count from 1, arcs from 0. No call allocates.
pub trait Network {
    ghost node_count: { Self → ℕ };

    ghost list: { Self → List ArcView };

    /// The number of nodes, and the greatest ID.
    fn nodes(&self) -> u32
        ensures { result ≡ node_count self.now };

    /// The number of arcs.
    fn arcs(&self) -> u32
        ensures { result ≡ length (list self.now) };

    /// The arc with this index.
    fn arc(&self, i: u32) -> ArcView
        requires { i < length (list self.now) }
        ensures { slice_get (list self.now) i ≡ Some result };

    /// Whether `find` uses an index instead of a pass over all arcs. No result depends on it.
    fn is_indexed(&self) -> bool {
        false
    }

    /// The index of the arc from `tail` to `head` that comes after `k` such arcs; none if there are no more than `k`.
    fn find(&self, tail: u32, head: u32, k: u32) -> Option<u32>
        ensures { IsKthBetween (list self.now) tail head k result }
    {
        let mut left = k;
        for i in 0..self.arcs() {
            let arc = self.arc(i);
            if arc.tail == tail && arc.head == head {
                if left == 0 {
                    return Some(i);
                }
                left -= 1;
            }
        }
        None
    }
}
