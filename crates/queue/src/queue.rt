// A queue of states, which contracts see as the list of the states' keys. Above the n states stands
// a tree of nodes, of which node 1 names a state of least key. Nothing is proved of what nodes name,
// since a state that they name is looked at before it is taken.
ghost use Rattle.std.specs.Prelude.{◌≡◌, ◌*◌, ◌≤◌, ◌<◌, length, replicate, get_or, set, position, nat_lt};
ghost use Rattle.limits.specs.Limits.{most_states};
ghost use Rattle.queue.specs.Queue.{no_key, Lowered, Chosen};

use crate::NO_KEY;
use std::marker::Model;

// Both arrays are lent: made here they would be copied to where they stay, at 40 KB of stack a copy.
#[derive(Drop)]
pub struct Queue<'q> {
    keys: &'q mut [u64],
    nodes: &'q mut [u16],
    states: usize,
}

impl<'q> Model for Queue<'q> {
    ghost use Rattle.std.specs.Prelude.{ℕ, List, length, take, ◌≡◌, ◌≤◌};
    ghost use Rattle.limits.specs.Limits.{most_states};

    ghost Value = { List ℕ };

    ghost view = { λ q. take q.states q.keys.now };

    ghost invariant = { λ q. (q.states ≤ most_states) × (length q.keys.now ≡ most_states)
        × (length q.nodes.now ≡ most_states) };
}

impl<'q> Queue<'q> {
    // A queue of n states, none of which has a key. What is lent may hold anything.
    pub fn of(keys: &'q mut [u64], nodes: &'q mut [u16], n: usize) -> Queue<'q>
        requires keys_len { length keys.old ≡ most_states }
        requires nodes_len { length nodes.old ≡ most_states }
        requires few { n ≤ most_states }
        ensures { result ≡ replicate n no_key }
    {
        keys[..n].fill(NO_KEY);
        let mut queue = Queue {
            keys,
            nodes,
            states: n,
        };
        queue.order();
        queue
    }

    // The state that node i names. From n on the nodes are the n states themselves.
    fn named(&self, i: usize) -> u16
        requires { i < 2 * most_states }
    {
        let n = self.states;
        if i < n { self.nodes[i] } else { (i - n) as u16 }
    }

    // Has each node name the first state below it.
    fn order(&mut self)
        ensures { self.new ≡ self.old }
    {
        for i in (1..self.states).rev() {
            let first = self.named(2 * i);
            self.nodes[i] = first;
        }
    }

    // The key of a state; NO_KEY past the last.
    fn key(&self, s: u16) -> u64
        ensures { result < no_key → (s < length self.now) × (get_or self.now s 0 ≡ result) }
    {
        let i = s as usize;
        if i < self.states {
            self.keys[i]
        } else {
            NO_KEY
        }
    }

    // The one of two states that has the lesser key.
    fn lesser(&self, a: u16, b: u16) -> u16 {
        if self.key(b) < self.key(a) { b } else { a }
    }

    // Has the nodes above state s name states of least key again, from below upward.
    fn sift_up(&mut self, s: usize)
        requires { s < length self.old }
        ensures { self.new ≡ self.old }
    {
        let n = self.states;
        let mut i = (n + s) / 2;
        // A while: the index is halved.
        while 0 < i {
            let left = self.named(2 * i);
            let right = self.named(2 * i + 1);
            let best = self.lesser(left, right);
            if best as usize != s && self.nodes[i] == best {
                return;
            }
            self.nodes[i] = best;
            i /= 2;
        }
    }

    // Lowers the key of state s to x, where that is less.
    pub fn lower(&mut self, s: usize, x: u64)
        requires { s < length self.old }
        ensures { Lowered s x self.old self.new }
    {
        let keys = &mut *self.keys;
        if x < keys[s] {
            keys[s] = x;
            self.sift_up(s);
        }
    }

    // Takes back the key of state s.
    pub fn take(&mut self, s: usize) -> u64
        requires { s < length self.old }
        ensures key { result ≡ get_or self.old s 0 }
        ensures taken { self.new ≡ set self.old s no_key }
    {
        let keys = &mut *self.keys;
        let key = keys[s];
        keys[s] = NO_KEY;
        self.sift_up(s);
        key
    }

    // A state that has a key, the one that the order names where it has one; none where none has.
    pub fn choose(&self) -> Option<usize>
        ensures { Chosen self.now result }
    {
        let s = self.named(1);
        if self.key(s) < NO_KEY {
            return Some(s as usize);
        }
        first(&self.keys[..self.states])
    }
}

// The first state that has a key.
fn first(keys: &[u64]) -> Option<usize>
    ensures { result ≡ position (λ k. nat_lt k no_key) keys.now }
{
    keys.iter().position(|k| *k < NO_KEY)
}
